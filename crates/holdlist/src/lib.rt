// Hold lists: u32 counts beside u16 words, two lists, for so they are lent. A field is compiled into the shortest list that plays it.
#![tactic(auto)]

mod answering;
mod compiling;
mod filling;
mod playing;
mod steps;
mod text;

pub use answering::put_text_in;
pub use compiling::{compile, compile_edges, compile_edges_in, compile_in};
pub use playing::play;
pub use text::{
    put_byte, put_bytes, put_decimal, put_head_line, put_hex2, put_hex4, put_listing, put_printed,
    put_refused_line, put_step_line,
};

// A word held for a number of positions.
#[derive(Clone, Copy)]
pub struct Step {
    pub count: u32,
    pub word: u16,
}

// How many steps a list has, and how many pixels they hold.
#[derive(Clone, Copy)]
pub struct ListSize {
    pub steps: usize,
    pub pixels: u64,
}
