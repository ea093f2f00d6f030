// The text of the answers, put into a lent slice from a place on. What has no room is left out; each function gives the place after what it put.
// The slice and the place stay two parameters: holdlist's `put_byte` and its kin, which are called with both, take them so.
ghost use Rattle.std.specs.Prelude.{ℕ, ◌≡◌, List, length, get_or};
ghost use Rattle.profile.specs.Lists.{chunks};
ghost use Rattle.holdlist.specs.Text.{Puts};
ghost use Rattle.cases.specs.Answer.{number_text, after, numbers_text, afters, joined_line, hex_line, sequence_numbers, gate_numbers, subck_numbers, shutter_numbers, region_numbers, sequences_text, gates_text, regions_text, field_text, tables_text, profile_line, head_text, verdict_line, case_line};

use holdlist::{put_byte, put_bytes, put_decimal, put_hex2};
use profile::{Field, Gate, Profile, Region, Sequence, Shutter, Subck, Tables, Verdict};

// ---- numbers of a line

// A number after another.
pub(crate) fn put_after(out: &mut [u8], at: usize, n: u64) -> usize
    ensures { Puts (after n) out.old at result out.new }
{
    let a = put_byte(out, at, 32);
    put_decimal(out, a, n)
}

// A number that may stand at the front of a line: whether it does is known where the line is begun.
fn put_number(out: &mut [u8], at: usize, front: bool, n: u64) -> usize
    ensures { Puts (number_text front n) out.old at result out.new }
{
    if front {
        return put_decimal(out, at, n);
    }
    put_after(out, at, n)
}

// The items of a list, one after the other: `put` puts item i.
fn put_each<T: Copy, F: Fn(&mut [u8], usize, usize, T) -> usize>(
    out: &mut [u8],
    at: usize,
    items: &[T],
    put: F,
) -> usize
    requires { F.IsAlwaysCallable put }
    ensures { (text : ℕ → T → List ℕ) (d : T) (m : ℕ) → length items.now ≡ m
        → ((o p : _) (to i n : ℕ) (x : T) → F.post put o to i x n p → Puts (text i x) o.now to n p.now)
        → Puts (chunks m (λ i. text i (get_or items.now i d))) out.old at result out.new }
{
    let mut to = at;
    for (i, x) in items.iter().enumerate() {
        to = put(out, to, i, *x);
    }
    to
}

// Numbers, of which the first may stand at the front of a line.
fn put_numbers(out: &mut [u8], at: usize, front: bool, numbers: &[u16]) -> usize
    ensures { Puts (numbers_text front numbers.now) out.old at result out.new }
{
    put_each(out, at, numbers, |out, to, i, n| {
        put_number(out, to, front & (i == 0), u64::from(n))
    })
}

// A line of numbers.
pub(crate) fn put_words(out: &mut [u8], at: usize, words: &[u16]) -> usize
    ensures { Puts (joined_line words.now) out.old at result out.new }
{
    let a = put_numbers(out, at, true, words);
    put_byte(out, a, b'\n')
}

// Apart from words: a bound for both widths would say nothing of the number.
pub(crate) fn put_counts(out: &mut [u8], at: usize, counts: &[u32]) -> usize
    ensures { Puts (joined_line counts.now) out.old at result out.new }
{
    let a = put_each(out, at, counts, |out, to, i, n| {
        put_number(out, to, i == 0, u64::from(n))
    });
    put_byte(out, a, b'\n')
}

// A line of bytes in hex.
pub(crate) fn put_hex_line(out: &mut [u8], at: usize, bytes: &[u8]) -> usize
    ensures { Puts (hex_line bytes.now) out.old at result out.new }
{
    let a = put_each(out, at, bytes, |out, to, _, b| put_hex2(out, to, b));
    put_byte(out, a, b'\n')
}

// ---- a profile as its 381 numbers

fn put_sequence(out: &mut [u8], at: usize, s: Sequence) -> usize
    ensures { Puts (afters (sequence_numbers s)) out.old at result out.new }
{
    let numbers = [
        u16::from(s.present),
        s.pattern,
        s.length,
        s.start,
        s.odd,
        s.even,
        s.mask,
    ];
    put_numbers(out, at, false, &numbers)
}

fn put_sequences(out: &mut [u8], at: usize, sequences: &[Sequence; 10]) -> usize
    ensures { Puts (sequences_text sequences.now) out.old at result out.new }
{
    put_each(out, at, sequences, |out, to, _, sequence| {
        put_sequence(out, to, sequence)
    })
}

fn put_gate(out: &mut [u8], at: usize, g: Gate) -> usize
    ensures { Puts (afters (gate_numbers g)) out.old at result out.new }
{
    let numbers = [u16::from(g.present), g.on, g.level, g.toggle1, g.toggle2];
    put_numbers(out, at, false, &numbers)
}

fn put_gates(out: &mut [u8], at: usize, gates: &[Gate; 5]) -> usize
    ensures { Puts (gates_text gates.now) out.old at result out.new }
{
    put_each(out, at, gates, |out, to, _, gate| {
        put_gate(out, to, gate)
    })
}

fn put_subck(out: &mut [u8], at: usize, s: Subck) -> usize
    ensures { Puts (afters (subck_numbers s)) out.old at result out.new }
{
    let numbers = [
        u16::from(s.present),
        s.level,
        s.toggle1,
        s.toggle2,
        s.suppressed,
        s.count,
    ];
    put_numbers(out, at, false, &numbers)
}

fn put_shutter(out: &mut [u8], at: usize, s: Shutter) -> usize
    ensures { Puts (afters (shutter_numbers s)) out.old at result out.new }
{
    let numbers = [
        u16::from(s.present),
        s.active,
        s.on_line,
        s.on_pixel,
        s.off_line,
        s.off_pixel,
    ];
    put_numbers(out, at, false, &numbers)
}

fn put_tables(out: &mut [u8], at: usize, tables: &Tables) -> usize
    ensures { Puts (tables_text tables.now) out.old at result out.new }
{
    let a = put_numbers(out, at, true, &tables.registers);
    let b = put_sequences(out, a, &tables.sequences);
    let c = put_gates(out, b, &tables.gates);
    let d = put_subck(out, c, tables.subck);
    let e = put_shutter(out, d, tables.shutters[0]);
    put_shutter(out, e, tables.shutters[1])
}

fn put_region(out: &mut [u8], at: usize, region: Region) -> usize
    ensures { Puts (afters (region_numbers region)) out.old at result out.new }
{
    let numbers = [region.first, region.sequence, u16::from(region.mode)];
    put_numbers(out, at, false, &numbers)
}

fn put_regions(out: &mut [u8], at: usize, regions: &[Region; 7]) -> usize
    ensures { Puts (regions_text regions.now) out.old at result out.new }
{
    put_each(out, at, regions, |out, to, _, region| {
        put_region(out, to, region)
    })
}

fn put_field(out: &mut [u8], at: usize, f: &Field) -> usize
    ensures { Puts (field_text f.now) out.old at result out.new }
{
    let numbers = [
        u16::from(f.present),
        f.lines,
        f.last,
        f.gate,
        f.gate2,
        f.second,
        f.count,
    ];
    let a = put_numbers(out, at, false, &numbers);
    put_regions(out, a, &f.regions)
}

pub(crate) fn put_profile(out: &mut [u8], at: usize, profile: Profile) -> usize
    ensures { Puts (profile_line profile) out.old at result out.new }
{
    let a = put_tables(out, at, &profile.tables);
    let b = put_field(out, a, &profile.field);
    put_byte(out, b, 10)
}

// ---- the first lines

// Number, place, output and toggle of a verdict.
fn put_verdict(out: &mut [u8], at: usize, verdict: Verdict) -> usize
    ensures { Puts (head_text verdict) out.old at result out.new }
{
    let a = put_decimal(out, at, u64::from(verdict.number));
    let b = put_after(out, a, verdict.place);
    let c = put_after(out, b, u64::from(verdict.output));
    put_after(out, c, u64::from(verdict.toggle))
}

// The line of a verdict and the numbers after it.
pub(crate) fn put_verdict_line(
    out: &mut [u8],
    at: usize,
    verdict: Verdict,
    numbers: &[u64],
) -> usize
    ensures { Puts (verdict_line verdict numbers.now) out.old at result out.new }
{
    let a = put_verdict(out, at, verdict);
    let b = put_each(out, a, numbers, |out, to, _, n| put_after(out, to, n));
    put_byte(out, b, 10)
}

// "CASE k KIND"
pub(crate) fn put_case_line(out: &mut [u8], k: u64, letter: u8) -> usize
    ensures { Puts (case_line k letter) out.old 0 result out.new }
{
    let a = put_bytes(out, 0, b"CASE");
    let b = put_after(out, a, k);
    put_bytes(out, b, &[32, letter, 10])
}
