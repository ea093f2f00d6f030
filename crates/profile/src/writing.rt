// A profile as a script, into a lent slice: all registers, then the items that are present, each at the place after the one before it.
ghost use Rattle.std.specs.Prelude.{◌≡◌, ℕ, List, cond, [], ◌∷◌, ◌++◌, ◌+◌, ◌*◌, ◌<◌, ◌≤◌, length, get_or};
ghost use Rattle.std.proofs.lemmas.List.Edits.{sets};
ghost use Rattle.profile.specs.Lists.{chunks, over};
ghost use Rattle.profile.specs.Bytes.{two_bytes};
ghost use Rattle.profile.specs.Values.{empty_sequence, empty_gate, empty_shutter};
ghost use Rattle.profile.specs.Geometry.{has_second_line};
ghost use Rattle.profile.specs.Refusals.{write_told};
ghost use Rattle.profile.specs.Versions.{newest_rules};
ghost use Rattle.profile.specs.Script.{head_length, region_length};
ghost use Rattle.profile.specs.Writing.{
  longest_script,
  register_record,
  register_chunk,
  sequence_written,
  field_head,
  region_bytes,
  field_chunk,
  gate_written,
  subck_chunk,
  shutter_written,
  write_script,
  write_answer,
  write_leaves,
};

use crate::geometry::{has_second_line, region_count};
use crate::records::{REGION, head_length};
use crate::rules::check_in;
use crate::versions::newest_rules;
use crate::{Field, Gate, Profile, Refusal, Ruleset, Sequence, Shutter, Subck};

// Stores bytes at a place. Slice and place go side by side: a struct of both would add to each contract that the slice stays the one lent.
fn store(out: &mut [u8], at: usize, bytes: &[u8])
    requires { at + length bytes.now ≤ length out.old }
    ensures { out.new ≡ sets out.old at bytes.now }
{
    out[at..at + bytes.len()].copy_from_slice(bytes);
}

// Stores numbers of two bytes at a place.
fn put_numbers(out: &mut [u8], at: usize, numbers: &[u16])
    requires { at + 2 * length numbers.now ≤ length out.old }
    ensures { out.new ≡ sets out.old at (two_bytes numbers.now) }
{
    for (i, number) in numbers.iter().enumerate() {
        store(out, at + 2 * i, &number.to_le_bytes());
    }
}

// Stores an item's record where the item is present, and gives the place after it.
fn put_present(out: &mut [u8], at: usize, present: bool, numbers: &[u16]) -> usize
    requires { at + length (cond present (two_bytes numbers.now) []) ≤ length out.old }
    ensures value { result ≡ at + length (cond present (two_bytes numbers.now) []) }
    ensures out_after { out.new ≡ sets out.old at (cond present (two_bytes numbers.now) []) }
{
    if present {
        put_numbers(out, at, numbers);
        at + 2 * numbers.len()
    } else {
        at
    }
}

fn put_register(out: &mut [u8], at: usize, address: u8, low: u16, high: u16)
    requires { at + 8 ≤ length out.old }
    ensures { out.new ≡ sets out.old at (register_record address low high) }
{
    let word = u32::from(low) + 4096 * u32::from(high);
    let [first, second, third, _] = word.to_le_bytes();
    store(out, at, &[4, 0, 1, 0, address, first, second, third]);
}

// All registers by address, from the slice's first byte.
#[tactic(auto, using(crate::proofs::Stores::storing))]
fn put_registers(out: &mut [u8], registers: &[u16; 240])
    requires { 960 ≤ length out.old }
    ensures { out.new ≡ sets out.old 0 (chunks 120 (register_chunk registers.now)) }
{
    for a in 0..120 {
        put_register(out, 8 * a, a as u8, registers[2 * a], registers[2 * a + 1]);
    }
}

// What a script has by number where it is present: a sequence, a gate, a shutter.
trait Item: Copy {
    ghost none: { Self };

    ghost written: { ℕ → Self → List ℕ };

    // Stores the record of item k where it is present, and gives the place after it.
    fn put(self, out: &mut [u8], at: usize, k: u16) -> usize
        requires { at + length (written k self) ≤ length out.old }
        ensures value { result ≡ at + length (written k self) }
        ensures out_after { out.new ≡ sets out.old at (written k self) };
}

impl Item for Sequence {
    ghost none = { empty_sequence };

    ghost written = { λ k s. sequence_written k s };

    fn put(self, out: &mut [u8], at: usize, k: u16) -> usize {
        let w = [
            14,
            2,
            k,
            self.pattern,
            self.length,
            self.start,
            self.odd,
            self.even,
            self.mask,
        ];
        put_present(out, at, self.present, &w)
    }
}

impl Item for Gate {
    ghost none = { empty_gate };

    ghost written = { λ k g. gate_written k g };

    fn put(self, out: &mut [u8], at: usize, k: u16) -> usize {
        let w = [10, 4, k, self.on, self.level, self.toggle1, self.toggle2];
        put_present(out, at, self.present, &w)
    }
}

impl Item for Shutter {
    ghost none = { empty_shutter };

    ghost written = { λ k s. shutter_written k s };

    fn put(self, out: &mut [u8], at: usize, k: u16) -> usize {
        let w = [
            12,
            6,
            k,
            self.active,
            self.on_line,
            self.on_pixel,
            self.off_line,
            self.off_pixel,
        ];
        put_present(out, at, self.present, &w)
    }
}

// The items present by number, from a place on, and the place after them.
fn put_items<T: Item, const N: usize>(out: &mut [u8], at: usize, items: &[T; N]) -> usize
    requires few { N ≤ 10 }
    requires room { at + length (chunks N (λ k. T.written k (get_or items.now k T.none))) ≤ length out.old }
    ensures value { result ≡ at + length (chunks N (λ k. T.written k (get_or items.now k T.none))) }
    ensures out_after { out.new ≡ sets out.old at (chunks N (λ k. T.written k (get_or items.now k T.none))) }
{
    let mut to = at;
    for (k, item) in items.iter().enumerate() {
        to = item.put(out, to, k as u16);
    }
    to
}

fn put_subck(out: &mut [u8], at: usize, s: Subck) -> usize
    requires { at + length (subck_chunk s) ≤ length out.old }
    ensures value { result ≡ at + length (subck_chunk s) }
    ensures out_after { out.new ≡ sets out.old at (subck_chunk s) }
{
    let w = [10, 5, s.level, s.toggle1, s.toggle2, s.suppressed, s.count];
    put_present(out, at, s.present, &w)
}

// Region i of a field.
fn put_region(out: &mut [u8], at: usize, f: Field, i: usize)
    requires { (at + region_length ≤ length out.old) × (i < 7) }
    ensures { out.new ≡ sets out.old at (region_bytes f i) }
{
    let region = f.regions[i];
    put_numbers(
        out,
        at,
        &[region.first, region.sequence, u16::from(region.mode)],
    );
}

// The field's regions, from a place on.
fn put_regions(out: &mut [u8], at: usize, f: Field, n: usize)
    requires { (at + region_length * n ≤ length out.old) × (n ≤ 7) }
    ensures { out.new ≡ sets out.old at (chunks n (region_bytes f)) }
{
    for i in 0..n {
        put_region(out, at + REGION * i, f, i);
    }
}

// The header of a field with n regions and the numbers before them, from a place on.
fn put_head(out: &mut [u8], at: usize, f: Field, n: usize) -> usize
    requires { (at + (4 + head_length (has_second_line f)) ≤ length out.old) × (n ≤ 7) }
    ensures value { result ≡ at + (4 + head_length (has_second_line f)) }
    ensures out_after { out.new ≡ sets out.old at (two_bytes ((head_length (has_second_line f) + region_length * n) ∷ 3 ∷ []) ++ field_head f) }
{
    let two = has_second_line(f);
    let head = head_length(two);
    let length = (head + REGION * n) as u16;
    if two {
        let w = [
            length, 3, f.lines, f.last, f.gate, f.gate2, f.second, f.count,
        ];
        put_numbers(out, at, &w);
        return at + 4 + head;
    }
    let w = [length, 3, f.lines, f.last, f.gate, f.second, f.count];
    put_numbers(out, at, &w);
    at + 4 + head
}

// The field where it is present, from a place on.
fn put_field(out: &mut [u8], at: usize, f: Field) -> usize
    requires { at + length (field_chunk f) ≤ length out.old }
    ensures value { result ≡ at + length (field_chunk f) }
    ensures out_after { out.new ≡ sets out.old at (field_chunk f) }
{
    if !f.present {
        return at;
    }
    let n = region_count(f);
    let from = put_head(out, at, f, n);
    put_regions(out, from, f, n);
    from + REGION * n
}

// Registers, sequences, the field, gates, SUBCK, MSHUT and STROBE, in this order from the slice's first byte.
fn put_script(profile: Profile, out: &mut [u8])
    requires { length (write_script profile) ≤ length out.old }
    ensures { out.new ≡ over (write_script profile) out.old }
{
    let tables = &profile.tables;
    put_registers(out, &tables.registers);
    let a = put_items(out, 960, &tables.sequences);
    let b = put_field(out, a, profile.field);
    let c = put_items(out, b, &tables.gates);
    let d = put_subck(out, c, tables.subck);
    put_items(out, d, &tables.shutters);
}

// An item's bytes where it is present.
fn size_of(present: bool, bytes: usize) -> usize
    ensures value { result ≡ cond present bytes 0 }
    ensures upper_bound { result ≤ bytes }
{
    if present { bytes } else { 0 }
}

fn field_length(f: Field) -> usize
    ensures value { result ≡ length (field_chunk f) }
    ensures upper_bound { result ≤ 58 }
{
    let head = head_length(has_second_line(f));
    size_of(f.present, 4 + head + REGION * region_count(f))
}

// How many bytes the profile's script has.
fn script_length(profile: Profile) -> usize
    ensures value { result ≡ length (write_script profile) }
    ensures upper_bound { result ≤ longest_script }
{
    let tables = &profile.tables;
    960 + 18 * tables.sequences.iter().filter(|s| s.present).count()
        + field_length(profile.field)
        + 14 * tables.gates.iter().filter(|g| g.present).count()
        + size_of(tables.subck.present, 14)
        + 16 * tables.shutters.iter().filter(|s| s.present).count()
}

// Writes the profile as a script from the slice's first byte on, and gives its length; or says why not, and leaves the slice as it is.
pub fn write_in(rules: Ruleset, profile: Profile, out: &mut [u8]) -> Result<usize, Refusal>
    ensures value { write_told result ≡ write_answer rules profile (length out.old) }
    ensures out_after { out.new ≡ write_leaves rules profile out.old }
{
    check_in(rules, profile)?;
    let n = script_length(profile);
    if out.len() < n {
        return Err(Refusal::NoRoom(n));
    }
    put_script(profile, out);
    Ok(n)
}

// The same by the newest rules.
pub fn write(profile: Profile, out: &mut [u8]) -> Result<usize, Refusal>
    ensures value { write_told result ≡ write_answer newest_rules profile (length out.old) }
    ensures out_after { out.new ≡ write_leaves newest_rules profile out.old }
{
    write_in(newest_rules(), profile, out)
}
