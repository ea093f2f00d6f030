// Why something is refused, and what each refusal says by the rule book's numbers.
ghost use Rattle.std.specs.Prelude.{◌≡◌};
ghost use Rattle.profile.specs.Values.{accepted, refused, refused_toggle};
ghost use Rattle.profile.specs.Refusals.{verdict_of};

use crate::Verdict;

// The verdict of what is accepted.
pub fn accept() -> Verdict
    ensures { result ≡ accepted }
{
    Verdict {
        number: 0,
        place: 0,
        output: 0,
        toggle: 0,
    }
}

// That of a refusal by its number, at its place.
pub fn refuse(number: u16, place: u64) -> Verdict
    ensures { result ≡ refused number place }
{
    Verdict {
        number,
        place,
        output: 0,
        toggle: 0,
    }
}

// That of refusal 10: an output's toggle that is out of order, in a region.
fn refuse_toggle(place: usize, output: u16, toggle: u16) -> Verdict
    ensures { result ≡ refused_toggle place output toggle }
{
    Verdict {
        number: 10,
        place: place as u64,
        output,
        toggle,
    }
}

// The rule book's refusals in its order, 1 to 20. With them what names their place: the offset of a record, the number of a region, a gate or a
// shutter, of `ToggleOrder` also the output, 1 to 6, and its toggle, 2 or 3; of `NoRoom` how many bytes or steps are needed.
#[derive(Clone, Copy)]
pub enum Refusal {
    TooLong,
    Cut(usize),
    UnknownKind(usize),
    WrongLength(usize),
    OutOfRange(usize),
    NoField,
    RegionStart(usize),
    NoSequence(usize),
    NoPattern(usize),
    ToggleOrder(usize, u16, u16),
    Mask(usize),
    Counts(usize),
    RunEnd(usize),
    GateLine,
    GatePulse(usize),
    SubckPulse,
    ShutterSpan(usize),
    NoRoom(usize),
    NoPixel,
    NoStep,
}

impl Refusal {
    // The number, the place, and of 10 the output and the toggle.
    pub fn verdict(self) -> Verdict
        ensures { result ≡ verdict_of self }
    {
        match self {
            Refusal::TooLong => refuse(1, 0),
            Refusal::Cut(at) => refuse(2, at as u64),
            Refusal::UnknownKind(at) => refuse(3, at as u64),
            Refusal::WrongLength(at) => refuse(4, at as u64),
            Refusal::OutOfRange(at) => refuse(5, at as u64),
            Refusal::NoField => refuse(6, 0),
            Refusal::RegionStart(region) => refuse(7, region as u64),
            Refusal::NoSequence(region) => refuse(8, region as u64),
            Refusal::NoPattern(region) => refuse(9, region as u64),
            Refusal::ToggleOrder(region, output, toggle) => refuse_toggle(region, output, toggle),
            Refusal::Mask(region) => refuse(11, region as u64),
            Refusal::Counts(region) => refuse(12, region as u64),
            Refusal::RunEnd(region) => refuse(13, region as u64),
            Refusal::GateLine => refuse(14, 0),
            Refusal::GatePulse(gate) => refuse(15, gate as u64),
            Refusal::SubckPulse => refuse(16, 0),
            Refusal::ShutterSpan(shutter) => refuse(17, shutter as u64),
            Refusal::NoRoom(needed) => refuse(18, needed as u64),
            Refusal::NoPixel => refuse(19, 0),
            Refusal::NoStep => refuse(20, 0),
        }
    }
}
