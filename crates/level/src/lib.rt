// The word of 14 output levels at every line and pixel of a field. A line holds where everything acts on it; the word says the levels.
// Where a law speaks of a number itself it is widened by a cast: a proof reads a cast as the number, and a `from` as a further one.
// Bounds of levels and words stand beside their values, for what joins two halves asks for both.
#![tactic(auto)]

mod first;
mod keys;
mod lines;
mod made;
mod masks;
mod nearest;
mod others;
mod pixels;
mod place;
mod ready;
mod second;
mod stops;

pub use lines::{line_of, line_on, strip_of};
pub use nearest::{next_edge, next_edge_in};
pub use pixels::fill;
pub use place::{level, level_in, locate, locate_in};
use profile::{Field, Gate, Mode, Pattern, Sequence, Shutter, Subck};
pub use stops::stretches;

// How V1 to V6 run on a line: each repetition starts afresh, or takes over the levels that the last one ended with, or the toggles are multiplied.
#[derive(Clone, Copy)]
pub enum Run {
    Afresh,
    Carried,
    Multiplied,
}

// A freeze and resume pair that the mask turns on.
#[derive(Clone, Copy)]
pub struct Mask {
    pub freeze: u16,
    pub resume: u16,
}

// A gate or SUBCK on one line: its start level, and its two toggles, where they act here.
#[derive(Clone, Copy)]
pub struct Pulse {
    pub level: u16,
    pub toggles: Option<(u16, u16)>,
}

// A shutter on one line: active from one pixel up to, and not including, another.
#[derive(Clone, Copy)]
pub struct Span {
    pub level: u16,
    pub from: u16,
    pub to: u16,
}

// All that one line needs. `origin` is the number of its region's pixels before it, in plain 0; `second` is the second pattern, where it acts here.
#[derive(Clone, Copy)]
pub struct Line {
    pub length: u16,
    pub run: Run,
    pub pattern: Pattern,
    pub start: u16,
    pub origin: u32,
    pub repetitions: u16,
    pub mask1: Option<Mask>,
    pub mask2: Option<Mask>,
    pub second: Option<Pattern>,
    pub gates: [Pulse; 5],
    pub subck: Pulse,
    pub mshut: Span,
    pub strobe: Span,
}

// What all lines of a region share: how V1 to V6 run there, its first line, its sequence and that one's pattern, and what acts anywhere in the field.
#[derive(Clone, Copy)]
pub struct Strip {
    pub run: Run,
    pub mode: Mode,
    pub first: u16,
    pub sequence: Sequence,
    pub pattern: Pattern,
    pub field: Field,
    pub second: Pattern,
    pub gates: [Gate; 5],
    pub subck: Subck,
    pub shutters: [Shutter; 2],
}

// A line of the field and a pixel of it.
#[derive(Clone, Copy)]
pub struct LinePixel {
    pub line: u64,
    pub pixel: u64,
}
