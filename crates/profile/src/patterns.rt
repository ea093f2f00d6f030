// Patterns out of the half registers, and their toggles: which are used, their order, the highest.
ghost use Rattle.std.specs.Prelude.{◌≡◌, [], get_or};
ghost use Rattle.profile.specs.Layout.{IsPart};
ghost use Rattle.profile.specs.declared.layout.Part.TheVariants.{Toggle};
ghost use Rattle.profile.specs.Patterns.{
  empty_pattern,
  with_toggle,
  with_part,
  pattern_of,
  rows_of,
  is_plain,
  used,
  follows,
  toggle_fault,
  fault_named,
  used_or0,
  highest_in,
  highest_used,
};

use crate::layout::{Part, part_named, pattern_named, table};
use crate::{Mode, Pattern};

// A pattern of zeros.
pub fn empty_pattern() -> Pattern
    ensures { result ≡ empty_pattern }
{
    Pattern {
        levels: 0,
        length: 0,
        toggles: [0; 18],
        freeze1: 0,
        resume1: 0,
        freeze2: 0,
        resume2: 0,
    }
}

// Toggles with one replaced, output and toggle counted from 1.
fn with_toggle(output: u16, toggle: u16, half: u16, toggles: [u16; 18]) -> [u16; 18]
    requires { IsPart (Toggle output toggle) }
    ensures { result ≡ with_toggle output toggle half toggles }
{
    let mut after = toggles;
    let at = 3 * (output - 1) + (toggle - 1);
    after[usize::from(at)] = half;
    after
}

// A pattern with one part replaced; a pair other than the first is the second.
#[tactic(auto, unfolding(crate::specs::Patterns::with_part))]
fn with_part(part: Part, half: u16, pattern: Pattern) -> Pattern
    requires { IsPart part }
    ensures { result ≡ with_part part half pattern }
{
    match part {
        Part::Levels => Pattern {
            levels: half,
            ..pattern
        },
        Part::Length => Pattern {
            length: half,
            ..pattern
        },
        Part::Toggle(output, toggle) => Pattern {
            toggles: with_toggle(output, toggle, half, pattern.toggles),
            ..pattern
        },
        Part::Freeze(1) => Pattern {
            freeze1: half,
            ..pattern
        },
        Part::Freeze(_) => Pattern {
            freeze2: half,
            ..pattern
        },
        Part::Resume(1) => Pattern {
            resume1: half,
            ..pattern
        },
        Part::Resume(_) => Pattern {
            resume2: half,
            ..pattern
        },
    }
}

// Pattern k: the half registers that the table gives to it, each in its part; all zeros where there is none. The table alone says where a part
// stands, so it is gone over whole.
pub fn pattern_of(registers: [u16; 240], k: u16) -> Pattern
    ensures { result ≡ pattern_of registers k }
{
    let entries = table();
    let mut pattern = empty_pattern();
    for (i, entry) in entries.iter().enumerate() {
        if pattern_named(*entry) == k {
            pattern = with_part(part_named(*entry), registers[i], pattern);
        }
    }
    pattern
}

// The toggles as six outputs of three, written out: `as_chunks` lends a slice of them.
pub fn rows_of(t: [u16; 18]) -> [[u16; 3]; 6]
    ensures { result ≡ rows_of t }
{
    [
        [t[0], t[1], t[2]],
        [t[3], t[4], t[5]],
        [t[6], t[7], t[8]],
        [t[9], t[10], t[11]],
        [t[12], t[13], t[14]],
        [t[15], t[16], t[17]],
    ]
}

pub(crate) fn is_plain(mode: Mode) -> bool
    ensures { result ≡ is_plain mode }
{
    mode == Mode::Plain
}

// Whether a toggle is used in a mode.
pub(crate) fn used(mode: Mode, length: u16, x: u16) -> bool
    ensures { result ≡ used mode length x }
{
    match mode {
        Mode::Plain | Mode::Sweep => x < length,
        Mode::Multiplier => x != 4095,
    }
}

// Whether toggle y may follow toggle x.
fn follows(mode: Mode, length: u16, x: u16, y: u16) -> bool
    ensures { result ≡ follows (used mode length) x y }
{
    !used(mode, length, y) | (used(mode, length, x) & (x < y))
}

// The first used toggle out of order, 2 or 3: one function for all six outputs and for the second pattern.
#[tactic(auto, unfolding(crate::specs::Patterns::toggle_fault))]
pub(crate) fn toggle_fault(mode: Mode, length: u16, row: [u16; 3]) -> Option<u16>
    ensures { result ≡ fault_named (toggle_fault (used mode length) row) }
{
    if !follows(mode, length, row[0], row[1]) {
        Some(2)
    } else if !follows(mode, length, row[1], row[2]) {
        Some(3)
    } else {
        None
    }
}

// A toggle where multiplier uses it, else 0.
fn used_or_zero(x: u16) -> u16
    ensures { result ≡ used_or0 x }
{
    if x == 4095 { 0 } else { x }
}

// The highest used toggle of an output.
fn highest_in(row: [u16; 3]) -> u16
    ensures { result ≡ highest_in row }
{
    used_or_zero(row[0])
        .max(used_or_zero(row[1]))
        .max(used_or_zero(row[2]))
}

// The highest used toggle of all six outputs, 0 if none, as multiplier uses them.
#[tactic(auto, using(crate::proofs::Registers::highest_none, crate::proofs::Registers::highest_more))]
pub(crate) fn highest_used(rows: [[u16; 3]; 6]) -> u16
    ensures { result ≡ highest_used (λ k. get_or rows k []) 6 }
{
    let mut highest = 0;
    for row in rows {
        highest = highest.max(highest_in(row));
    }
    highest
}
