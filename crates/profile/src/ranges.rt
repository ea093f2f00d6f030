// The ranges of a profile handed in: a number that no record can carry, or an absent item that is not all zeros, is out of range.
ghost use Rattle.std.specs.Prelude.{◌≡◌, ◌<◌};
ghost use Rattle.profile.specs.Lists.{all, chunks};
ghost use Rattle.profile.specs.Ranges.{
  sequence_in,
  region_in,
  head_in,
  field_in,
  gate_in,
  subck_in,
  shutter_in,
  half_tests,
  in_range,
};

use crate::layout::half_in;
use crate::limits::{
    field_in_range, gate_in_range, region_in_range, sequence_in_range, shutter_in_range,
    subck_in_range,
};
use crate::{Field, Gate, Profile, Region, Sequence, Shutter, Subck};

// One function a kind of item: a generic one would be handed the presence, the ranges and the zeros, which are all there is.
#[tactic(auto, unfolding(crate::specs::Ranges::sequence_in, crate::specs::Lists::all))]
fn sequence_in(s: Sequence) -> bool
    ensures { result ≡ sequence_in s }
{
    if s.present {
        sequence_in_range(s)
    } else {
        s == Sequence::default()
    }
}

#[tactic(auto, unfolding(crate::specs::Ranges::gate_in, crate::specs::Lists::all))]
fn gate_in(g: Gate) -> bool
    ensures { result ≡ gate_in g }
{
    if g.present {
        gate_in_range(g)
    } else {
        g == Gate::default()
    }
}

#[tactic(auto, unfolding(crate::specs::Ranges::subck_in, crate::specs::Lists::all))]
fn subck_in(s: Subck) -> bool
    ensures { result ≡ subck_in s }
{
    if s.present {
        subck_in_range(s)
    } else {
        s == Subck::default()
    }
}

#[tactic(auto, unfolding(crate::specs::Ranges::shutter_in, crate::specs::Lists::all))]
fn shutter_in(s: Shutter) -> bool
    ensures { result ≡ shutter_in s }
{
    if s.present {
        shutter_in_range(s)
    } else {
        s == Shutter::default()
    }
}

// A field's numbers before its regions, one by one: a default field would ask its regions too.
#[tactic(auto, unfolding(crate::specs::Ranges::head_in, crate::specs::Lists::all))]
fn head_in(f: Field) -> bool
    ensures { result ≡ head_in f }
{
    if f.present {
        field_in_range(f)
    } else {
        (f.lines == 0)
            & (f.last == 0)
            & (f.gate == 0)
            & (f.gate2 == 0)
            & (f.second == 0)
            & (f.count == 0)
    }
}

// Region i; past the field's count it is all zeros.
#[tactic(auto, unfolding(crate::specs::Ranges::region_in, crate::specs::Lists::all))]
fn region_in(f: Field, i: usize) -> bool
    requires { i < 7 }
    ensures { result ≡ region_in f i }
{
    if i < usize::from(f.count) {
        region_in_range(f.regions[i])
    } else {
        f.regions[i] == Region::default()
    }
}

fn halves_in(registers: &[u16; 240]) -> bool
    ensures { result ≡ all (chunks 240 (half_tests registers.now)) }
{
    (0..240).all(|i| half_in(i, registers[i]))
}

// A field and its regions.
fn field_in(f: Field) -> bool
    ensures { result ≡ field_in f }
{
    head_in(f) & (0..7).all(|i| region_in(f, i))
}

#[tactic(auto, unfolding(crate::specs::Ranges::in_range))]
pub(crate) fn in_range(profile: Profile) -> bool
    ensures { result ≡ in_range profile }
{
    let tables = &profile.tables;
    halves_in(&tables.registers)
        & tables.sequences.iter().all(|s| sequence_in(*s))
        & tables.gates.iter().all(|g| gate_in(*g))
        & subck_in(tables.subck)
        & tables.shutters.iter().all(|s| shutter_in(*s))
        & field_in(profile.field)
}
