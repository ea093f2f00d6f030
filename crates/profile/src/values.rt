// What stands for none, the numbers of the modes, the empty profile.
ghost use Rattle.std.specs.Prelude.{◌≡◌};
ghost use Rattle.profile.specs.Values.{
  mode_number,
  mode_of,
  empty_region,
  empty_field,
  empty_tables,
  empty_profile,
};

use crate::{Field, Gate, Mode, Profile, Region, Sequence, Shutter, Subck, Tables};

// None, of a second gate line and of a second pattern.
pub(crate) const NONE: u16 = 65535;

// The number of a mode.
impl From<Mode> for u16 {
    ghost from_gives = { λ mode number. number ≡ mode_number mode };

    fn from(mode: Mode) -> u16 {
        match mode {
            Mode::Plain => 0,
            Mode::Sweep => 1,
            Mode::Multiplier => 2,
        }
    }
}

// The mode of a number that a record can carry; of a higher one as of 2, for the definition has one for every number.
impl From<u16> for Mode {
    ghost from_gives = { λ number mode. mode ≡ mode_of number };

    fn from(number: u16) -> Mode {
        match number {
            0 => Mode::Plain,
            1 => Mode::Sweep,
            _ => Mode::Multiplier,
        }
    }
}

// A region of zeros: the derived default, by the definition's name.
pub(crate) fn empty_region() -> Region
    ensures { result ≡ empty_region }
{
    Region::default()
}

// By hand, as a field and a pattern: of an array a derived default says what each item is, and not which list the items are.
#[tactic(auto, unfolding(crate::specs::Values::empty_tables))]
fn empty_tables() -> Tables
    ensures { result ≡ empty_tables }
{
    Tables {
        registers: [0; 240],
        sequences: [Sequence::default(); 10],
        gates: [Gate::default(); 5],
        subck: Subck::default(),
        shutters: [Shutter::default(); 2],
    }
}

#[tactic(auto, unfolding(crate::specs::Values::empty_field))]
fn empty_field() -> Field
    ensures { result ≡ empty_field }
{
    Field {
        present: false,
        lines: 0,
        last: 0,
        gate: 0,
        gate2: 0,
        second: 0,
        count: 0,
        regions: [empty_region(); 7],
    }
}

// The empty profile: nothing present, all zeros.
pub fn empty() -> Profile
    ensures { result ≡ empty_profile }
{
    Profile {
        tables: empty_tables(),
        field: empty_field(),
    }
}
