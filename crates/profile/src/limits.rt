// What a record can carry: the ranges of an item that is given.
#![tactic(auto, unfolding(crate::specs::Lists::all))]

ghost use Rattle.std.specs.Prelude.{◌≡◌, ◌&&◌, leb};
ghost use Rattle.profile.specs.Lists.{all};
ghost use Rattle.profile.specs.Ranges.{sequence_range, field_range, region_range, gate_range, subck_range, shutter_range};

use crate::values::NONE;
use crate::{Field, Gate, Region, Sequence, Shutter, Subck};

// How many lines, or pixels of a line, there can be.
fn is_extent(n: u16) -> bool
    ensures { result ≡ (leb 1 n && leb n 4095) }
{
    (1..=4095).contains(&n)
}

pub(crate) fn sequence_in_range(s: Sequence) -> bool
    ensures { result ≡ all (sequence_range s) }
{
    (s.pattern <= 9)
        & is_extent(s.length)
        & (s.start <= 4095)
        & (s.odd <= 4095)
        & (s.even <= 4095)
        & (s.mask <= 3)
}

// The numbers before the regions.
pub(crate) fn field_in_range(f: Field) -> bool
    ensures { result ≡ all (field_range f) }
{
    ((f.gate2 == NONE) | (f.gate2 <= 4094))
        & ((f.second == NONE) | (f.second <= 9))
        & is_extent(f.lines)
        & is_extent(f.last)
        & (f.gate <= 4094)
        & (1..=7).contains(&f.count)
}

pub(crate) fn region_in_range(r: Region) -> bool
    ensures { result ≡ all (region_range r) }
{
    (r.first <= 4094) & (r.sequence <= 9)
}

pub(crate) fn gate_in_range(g: Gate) -> bool
    ensures { result ≡ all (gate_range g) }
{
    (g.on <= 1) & (g.level <= 1) & (g.toggle1 <= 4095) & (g.toggle2 <= 4095)
}

pub(crate) fn subck_in_range(s: Subck) -> bool
    ensures { result ≡ all (subck_range s) }
{
    (s.level <= 1)
        & (s.toggle1 <= 4095)
        & (s.toggle2 <= 4095)
        & (s.suppressed <= 4095)
        & (s.count <= 4095)
}

pub(crate) fn shutter_in_range(s: Shutter) -> bool
    ensures { result ≡ all (shutter_range s) }
{
    (s.active <= 1)
        & (s.on_line <= 4095)
        & (s.on_pixel <= 4095)
        & (s.off_line <= 4095)
        & (s.off_pixel <= 4095)
}
