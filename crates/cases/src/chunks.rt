// An upload as a payload tells it: the state that it begins with, and the chunks that are cut by the payload's lengths.
ghost use Rattle.std.specs.Prelude.{◌≡◌, ◌+◌, ◌<◌, min, length};
ghost use Rattle.cases.specs.Raw.{bytes_from};
ghost use Rattle.cases.specs.Chunked.{upload_at, state_of, ends_cut};

use crate::raw::{VERSIONED, byte_at, eight_at, number_at, raw_profile};
use profile::upload::{Arrival, Upload, take};
use std::array;

// Where the lengths of a state's chunks are counted: behind the raw profile, the version and the rest of the state.
pub(crate) const STATED: usize = 848;

// The upload with the chunks whose lengths are counted at a place, and what is left behind them as one chunk more.
pub(crate) fn take_cut(upload: Upload, payload: &[u8], at: usize) -> Upload
    requires { at < 1000 }
    ensures { result ≡ upload_at payload.now at upload }
{
    let n = usize::from(number_at(payload, at));
    let mut after = upload;
    let mut from = (at + 2 + 2 * n).min(payload.len());
    for i in 0..n {
        let size = usize::from(number_at(payload, at + 2 + 2 * i));
        let end = (from + size).min(payload.len());
        after = take(after, &payload[from..end]);
        from = end;
    }
    take(after, &payload[from..])
}

fn held_bytes(payload: &[u8]) -> [u8; 58]
    ensures { result ≡ bytes_from payload.now 790 58 }
{
    array::from_fn(|i| byte_at(payload, 790 + i))
}

// The state of a payload.
pub(crate) fn state_of(payload: &[u8]) -> Upload
    ensures { result ≡ state_of payload.now }
{
    let arrival = Arrival {
        length: eight_at(payload, VERSIONED) as usize,
        number: number_at(payload, 772),
        place: eight_at(payload, 774),
        held: eight_at(payload, 782) as usize,
        bytes: held_bytes(payload),
    };
    Upload {
        arrival,
        profile: raw_profile(payload),
    }
}

// Whether a payload has the lengths that are counted at a place, and at most 40,000 bytes behind them.
#[tactic(auto, unfolding(crate::specs::Chunked::ends_cut))]
pub(crate) fn ends_cut(payload: &[u8], at: usize) -> bool
    requires { at < 1000 }
    ensures { result ≡ ends_cut payload.now at }
{
    let from = at + 2 + 2 * usize::from(number_at(payload, at));
    (from <= payload.len()) & (payload.len() <= from + 40000)
}
