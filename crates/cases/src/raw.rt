// Numbers of a payload, little-endian, and the raw profile: 381 numbers of two bytes. What lies past the payload is 0.
ghost use Rattle.std.specs.Prelude.{ℕ, ◌≡◌, ◌+◌, ◌*◌, ◌<◌, min, length, get_or};
ghost use Rattle.profile.specs.Bytes.{number_at};
ghost use Rattle.cases.specs.Raw.{four_at, eight_at, rules_at, raw_sequence, raw_gate, raw_subck, raw_shutter, raw_region, bytes_from, numbers_from, fours_from, raw_count, raw_numbers, raw_sequences, raw_gates, raw_shutters, raw_regions, field_with, raw_profile};
ghost use Rattle.cases.specs.Faults.{below, is_raw, has_lists};

use profile::{
    Field, Gate, Mode, Profile, Region, Ruleset, Sequence, Shutter, Subck, Tables, ruleset_of,
};
use std::array;

// ---- numbers

// As in `ask`: programs share libraries and no program's code.
pub(crate) fn byte_at(body: &[u8], at: usize) -> u8
    ensures { result ≡ get_or body.now at 0 }
{
    body.get(at).copied().unwrap_or(0)
}

// The number of two bytes.
pub(crate) fn number_at(body: &[u8], at: usize) -> u16
    requires { at < 200000 }
    ensures { result ≡ number_at body.now at }
{
    u16::from_le_bytes([byte_at(body, at), byte_at(body, at + 1)])
}

// The rules of the version at a place.
pub(crate) fn rules_at(body: &[u8], at: usize) -> Ruleset
    requires { at < 65536 }
    ensures { result ≡ rules_at body.now at }
{
    ruleset_of(number_at(body, at))
}

// The number of four bytes.
pub(crate) fn four_at(body: &[u8], at: usize) -> u32
    requires { at < 65536 }
    ensures { result ≡ four_at body.now at }
{
    u32::from_le_bytes([
        byte_at(body, at),
        byte_at(body, at + 1),
        byte_at(body, at + 2),
        byte_at(body, at + 3),
    ])
}

// The number of eight bytes, of two fours: `from_le_bytes` would join eight tests of where a byte stands.
pub(crate) fn eight_at(body: &[u8], at: usize) -> u64
    requires { at < 60000 }
    ensures { result ≡ eight_at body.now at }
{
    u64::from(four_at(body, at)) + 4294967296 * u64::from(four_at(body, at + 4))
}

// Fills a list: each entry is what is told of its index.
fn fill<T: Copy, F: Fn(usize) -> T>(list: &mut [T], entry: F)
    requires { (k : ℕ) → k < length list.old → F.pre entry k }
    ensures long { length list.new ≡ length list.old }
    ensures filled { (k : ℕ) (d : T) → k < length list.old → F.post entry k (get_or list.new k d) }
{
    for i in 0..list.len() {
        list[i] = entry(i);
    }
}

// Fills a list with the numbers from a place on.
pub(crate) fn fill_numbers(list: &mut [u16], body: &[u8], at: usize)
    requires { at + 2 * length list.old < 65536 }
    ensures { list.new ≡ numbers_from body.now at (length list.old) }
{
    fill(list, |i| number_at(body, at + 2 * i));
}

pub(crate) fn fill_fours(list: &mut [u32], body: &[u8], at: usize)
    requires { at + 4 * length list.old < 65536 }
    ensures { list.new ≡ fours_from body.now at (length list.old) }
{
    fill(list, |i| four_at(body, at + 4 * i));
}

// ---- items, from number k of the raw profile on; places are asked to be below a round number, so that what is added to them cannot wrap

// The numbers of a raw profile, and its bytes; the bytes with a number of eight bytes behind it, and with two.
const RAW_COUNT: usize = 381;

pub(crate) const RAW: usize = 762;

pub(crate) const RAW_AND_ONE: usize = 770;

// A version is two bytes, behind the raw profile or in front of a script.
pub(crate) const VERSION: usize = 2;

pub(crate) const VERSIONED: usize = 764;

pub(crate) const VERSIONED_AND_ONE: usize = 772;

pub(crate) const VERSIONED_AND_TWO: usize = 780;

fn raw_sequence(n: &[u16; RAW_COUNT], k: usize) -> Sequence
    requires { k < 370 }
    ensures { result ≡ raw_sequence n.now k }
{
    Sequence {
        present: n[k] == 1,
        pattern: n[k + 1],
        length: n[k + 2],
        start: n[k + 3],
        odd: n[k + 4],
        even: n[k + 5],
        mask: n[k + 6],
    }
}

fn raw_gate(n: &[u16; RAW_COUNT], k: usize) -> Gate
    requires { k < 370 }
    ensures { result ≡ raw_gate n.now k }
{
    Gate {
        present: n[k] == 1,
        on: n[k + 1],
        level: n[k + 2],
        toggle1: n[k + 3],
        toggle2: n[k + 4],
    }
}

fn raw_subck(n: &[u16; RAW_COUNT], k: usize) -> Subck
    requires { k < 370 }
    ensures { result ≡ raw_subck n.now k }
{
    Subck {
        present: n[k] == 1,
        level: n[k + 1],
        toggle1: n[k + 2],
        toggle2: n[k + 3],
        suppressed: n[k + 4],
        count: n[k + 5],
    }
}

fn raw_shutter(n: &[u16; RAW_COUNT], k: usize) -> Shutter
    requires { k < 370 }
    ensures { result ≡ raw_shutter n.now k }
{
    Shutter {
        present: n[k] == 1,
        active: n[k + 1],
        on_line: n[k + 2],
        on_pixel: n[k + 3],
        off_line: n[k + 4],
        off_pixel: n[k + 5],
    }
}

fn raw_region(n: &[u16; RAW_COUNT], k: usize) -> Region
    requires { k < 379 }
    ensures { result ≡ raw_region n.now k }
{
    Region {
        first: n[k],
        sequence: n[k + 1],
        mode: Mode::from(n[k + 2]),
    }
}

// ---- the raw profile

// Registers, and below all numbers: a const parameter for the two lengths would owe a bound on it.
fn raw_registers(body: &[u8]) -> [u16; 240]
    ensures { result ≡ numbers_from body.now 0 240 }
{
    let mut registers = [0; 240];
    fill_numbers(&mut registers, body, 0);
    registers
}

fn raw_numbers(body: &[u8]) -> [u16; RAW_COUNT]
    ensures { result ≡ raw_numbers body.now }
{
    let mut numbers = [0; RAW_COUNT];
    fill_numbers(&mut numbers, body, 0);
    numbers
}

fn raw_sequences(n: &[u16; RAW_COUNT]) -> [Sequence; 10]
    ensures { result ≡ raw_sequences n.now }
{
    array::from_fn(|i| raw_sequence(n, 240 + 7 * i))
}

fn raw_gates(n: &[u16; RAW_COUNT]) -> [Gate; 5]
    ensures { result ≡ raw_gates n.now }
{
    array::from_fn(|i| raw_gate(n, 310 + 5 * i))
}

fn raw_shutters(n: &[u16; RAW_COUNT]) -> [Shutter; 2]
    ensures { result ≡ raw_shutters n.now }
{
    array::from_fn(|i| raw_shutter(n, 341 + 6 * i))
}

fn raw_regions(n: &[u16; RAW_COUNT]) -> [Region; 7]
    ensures { result ≡ raw_regions n.now }
{
    array::from_fn(|i| raw_region(n, 360 + 3 * i))
}

fn raw_field(n: &[u16; RAW_COUNT], regions: [Region; 7]) -> Field
    ensures { result ≡ field_with n.now regions }
{
    Field {
        present: n[353] == 1,
        lines: n[354],
        last: n[355],
        gate: n[356],
        gate2: n[357],
        second: n[358],
        count: n[359],
        regions,
    }
}

#[tactic(auto, unfolding(crate::specs::Raw::raw_tables, crate::specs::Raw::raw_field))]
pub(crate) fn raw_profile(body: &[u8]) -> Profile
    ensures { result ≡ raw_profile body.now }
{
    let n = raw_numbers(body);
    let tables = Tables {
        registers: raw_registers(body),
        sequences: raw_sequences(&n),
        gates: raw_gates(&n),
        subck: raw_subck(&n, 335),
        shutters: raw_shutters(&n),
    };
    let field = raw_field(&n, raw_regions(&n));
    Profile { tables, field }
}

// ---- faults

// Whether n numbers, each a step after the one before, are below a limit.
fn all_below(body: &[u8], at: usize, step: usize, n: usize, limit: u16) -> bool
    requires at_bound { at < 1000 }
    requires step_bound { step < 100 }
    requires n_bound { n < 100 }
    ensures { result ≡ below body.now at step n limit }
{
    (0..n).all(|i| number_at(body, at + step * i) < limit)
}

// Whether a payload begins with a raw profile: each present flag is 0 or 1, each mode 0, 1 or 2.
#[tactic(auto, unfolding(crate::specs::Faults::is_raw))]
pub(crate) fn is_raw(body: &[u8]) -> bool
    ensures { result ≡ is_raw body.now }
{
    (RAW <= body.len())
        & all_below(body, 480, 14, 10, 2)
        & all_below(body, 620, 10, 5, 2)
        & all_below(body, 670, 12, 4, 2)
        & all_below(body, 724, 6, 7, 3)
}

// Whether a payload has the lengths of two lists at one place, and ends with the lists, from another on.
pub(crate) fn has_lists(body: &[u8], at: usize, from: usize) -> bool
    requires at_bound { at < 1000 }
    requires from_bound { from < 1000 }
    ensures { result ≡ has_lists body.now at from }
{
    let counts = four_at(body, at);
    let words = four_at(body, at + 4);
    if 4096 < counts {
        return false;
    }
    if 4096 < words {
        return false;
    }
    body.len() == from + 4 * (counts as usize) + 2 * (words as usize)
}

// The length of a list, of which the longest has 4,096 entries.
pub(crate) fn length_at(body: &[u8], at: usize) -> usize
    requires { at < 1000 }
    ensures { result ≡ min 4096 (four_at body.now at) }
{
    four_at(body, at).min(4096) as usize
}
