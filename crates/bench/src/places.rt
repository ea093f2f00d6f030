// The last pixel of a script's field and the one before it, asked for in turns 100,000 times in all: where they lie, what their words are, and the check alone.
// What is answered is summed, each number by its remainder, so that nothing wraps. bench/places.c does the same by the same rules in C.
ghost use Rattle.std.specs.Prelude.{◌≤◌};

use profile::empty;

const ROUNDS: u64 = 100000;

// The last but one of so many things counted from 0; the first, where there are fewer.
fn last_but_one(n: u64) -> u64
    ensures { result ≤ 18446744073709551613 }
{
    n.saturating_sub(2)
}

// Each sum has its own loop: one that is handed the term would ask of it, in a clause, how large it can be.

// The check alone, which each answer begins with, asked as often.
pub(crate) fn checks_sum(script: &[u8]) -> u64 {
    let profile = profile::read(script).unwrap_or(empty());
    let mut sum: u64 = 0;
    for _ in 0..ROUNDS {
        if let Err(refusal) = profile::check(profile) {
            sum += u64::from(refusal.verdict().number);
        }
    }
    sum
}

// Where they lie.
pub(crate) fn places_sum(script: &[u8]) -> u64 {
    let profile = profile::read(script).unwrap_or(empty());
    let n = last_but_one(profile::pixel_count(profile.tables, profile.field));
    let mut sum: u64 = 0;
    for k in 0..ROUNDS {
        if let Ok(place) = level::locate(profile, n + k % 2) {
            sum += place.line % 65536 + place.pixel % 65536;
        }
    }
    sum
}

// Their words.
pub(crate) fn levels_sum(script: &[u8]) -> u64 {
    let profile = profile::read(script).unwrap_or(empty());
    let line = last_but_one(u64::from(profile.field.lines) + 1);
    let pixel = last_but_one(u64::from(profile.field.last));
    let mut sum: u64 = 0;
    for k in 0..ROUNDS {
        sum += u64::from(level::level(profile, line, pixel + k % 2).unwrap_or(0));
    }
    sum
}
