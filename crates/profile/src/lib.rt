// Scripts and profiles. A profile is what a script carries: the 120 registers as 240 half registers, sequences, the field, gates, SUBCK and
// shutters. Numbers are u16 as the records carry them, levels and on flags too (0 or 1); presence is a bool.
#![tactic(auto)]

mod geometry;
mod layout;
mod limits;
mod patterns;
mod ranges;
mod records;
mod refusal;
mod rules;
pub mod upload;
mod values;
mod versions;
mod writing;

pub use geometry::{
    end_line, gate_length, gate_of, has_pixel, has_second_line, length_in, line_length,
    lines_pixels, pixel_count, region_at, region_count, region_of, region_pixels, region_size,
    repetitions, sequence_at, sequence_of, shutter_of,
};
pub use patterns::{empty_pattern, pattern_of, rows_of};
pub use records::{read, read_in, read_records};
pub use refusal::{Refusal, accept, refuse};
pub use rules::{check, check_in};
pub use values::empty;
pub use versions::{NEWEST, newest_rules, ruleset_of};
pub use writing::{write, write_in};

// Presence is a bool beside the numbers, and no Option, for a profile handed in may have any numbers in an absent item: `check` refuses it (5) where
// they are not all zeros. So too 65,535 stands for none in a field's `gate2` and `second`, among numbers of which `check` refuses the others.

// How the six V outputs run in a region.
#[derive(Clone, Copy, PartialEq, Eq, Default)]
pub enum Mode {
    #[default]
    Plain,
    Sweep,
    Multiplier,
}

#[derive(Clone, Copy, PartialEq, Eq, Default)]
pub struct Region {
    pub first: u16,
    pub sequence: u16,
    pub mode: Mode,
}

#[derive(Clone, Copy, PartialEq, Eq, Default)]
pub struct Sequence {
    pub present: bool,
    pub pattern: u16,
    pub length: u16,
    pub start: u16,
    pub odd: u16,
    pub even: u16,
    pub mask: u16,
}

// `last` is the length of the last line, `gate` and `gate2` are the gate lines, `second` is the second pattern's number; of `gate2` and `second`
// 65,535 is none. An absent field has 0 for each.
#[derive(Clone, Copy)]
pub struct Field {
    pub present: bool,
    pub lines: u16,
    pub last: u16,
    pub gate: u16,
    pub gate2: u16,
    pub second: u16,
    pub count: u16,
    pub regions: [Region; 7],
}

#[derive(Clone, Copy, PartialEq, Eq, Default)]
pub struct Gate {
    pub present: bool,
    pub on: u16,
    pub level: u16,
    pub toggle1: u16,
    pub toggle2: u16,
}

#[derive(Clone, Copy, PartialEq, Eq, Default)]
pub struct Subck {
    pub present: bool,
    pub level: u16,
    pub toggle1: u16,
    pub toggle2: u16,
    pub suppressed: u16,
    pub count: u16,
}

#[derive(Clone, Copy, PartialEq, Eq, Default)]
pub struct Shutter {
    pub present: bool,
    pub active: u16,
    pub on_line: u16,
    pub on_pixel: u16,
    pub off_line: u16,
    pub off_pixel: u16,
}

// The half registers stand by address, low half first; the table of layout.rt says what each holds. Shutter 0 is MSHUT, shutter 1 STROBE.
#[derive(Clone, Copy)]
pub struct Tables {
    pub registers: [u16; 240],
    pub sequences: [Sequence; 10],
    pub gates: [Gate; 5],
    pub subck: Subck,
    pub shutters: [Shutter; 2],
}

#[derive(Clone, Copy)]
pub struct Profile {
    pub tables: Tables,
    pub field: Field,
}

// A pattern: the start levels of V1..V6 as bits, its length, three toggles of each output (V1 first to V6 third), two freeze and resume pairs.
#[derive(Clone, Copy)]
pub struct Pattern {
    pub levels: u16,
    pub length: u16,
    pub toggles: [u16; 18],
    pub freeze1: u16,
    pub resume1: u16,
    pub freeze2: u16,
    pub resume2: u16,
}

// What a profile is judged by, and its words' version: a number, for every number is one, 0 as 1 and a later one as the newest.
#[derive(Clone, Copy)]
pub struct Ruleset {
    pub version: u16,
}

// What the definitions, and the printed text, say by numbers: code gives a `Result`, and makes a verdict to print it. 0 or the number of a refusal, and its place; for 10 the output, 1 to 6, and its toggle that is out of order, else 0 and 0.
#[derive(Clone, Copy)]
pub struct Verdict {
    pub number: u16,
    pub place: u64,
    pub output: u16,
    pub toggle: u16,
}
