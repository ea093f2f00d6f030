// Reading a script: its length, 1; record by record, 2 to 5; then what is judged of the profile. Each record's body goes to the reader of its kind as a part of the script.
ghost use Rattle.std.specs.Prelude.{◌≡◌, true, cond, ◌+◌, ◌*◌, ◌^◌, ◌<◌, ◌≤◌, length, drop};
ghost use Rattle.profile.specs.Bytes.{number_at, data_at};
ghost use Rattle.profile.specs.Values.{none, empty_profile, refused, read_answer};
ghost use Rattle.profile.specs.Refusals.{verdict_of, read_told};
ghost use Rattle.profile.specs.Rules.{judge};
ghost use Rattle.profile.specs.Versions.{newest_rules};
ghost use Rattle.profile.specs.Script.{
  head_length,
  region_length,
  sequence_from,
  has_form,
  region_start,
  gate_from,
  subck_from,
  shutter_from,
  field_length,
  allowed,
  fits,
  with_record,
  records,
  read_script,
};
ghost use Rattle.profile.specs.Upload.{reached};
ghost use Rattle.profile.specs.Reading.{
  register_answer,
  sequence_answer,
  field_answer,
  gate_answer,
  subck_answer,
  shutter_answer,
  head_from,
  region_answer,
  regions_answer,
  when,
  kind_number,
  kind_of,
  fault_number,
  found_told,
  found_at,
  taken_told,
  record_answer,
  stop_told,
  reached_answer,
  verdict_at,
};

use crate::layout::half_in;
use crate::limits::{
    field_in_range, gate_in_range, region_in_range, sequence_in_range, shutter_in_range,
    subck_in_range,
};
use crate::rules::judge;
use crate::values::{NONE, empty_region};
use crate::versions::newest_rules;
use crate::{
    Field, Gate, Mode, Profile, Refusal, Region, Ruleset, Sequence, Shutter, Subck, empty,
};

// The bytes of a region.
pub(crate) const REGION: usize = 6;

// The most bytes of a script that is read.
pub(crate) const MOST_BYTES: usize = 16384;

// ---- numbers of a body, little-endian

// The number of two bytes.
pub(crate) fn number_at(body: &[u8], at: usize) -> u16
    requires { at + 1 < length body.now }
    ensures { result ≡ number_at body.now at }
{
    u16::from_le_bytes([body[at], body[at + 1]])
}

// The number of three bytes.
fn data_at(body: &[u8], at: usize) -> u32
    requires { at + 2 < length body.now }
    ensures { (result ≡ data_at body.now at) × (result < 16777216) }
{
    u32::from_le_bytes([body[at], body[at + 1], body[at + 2], 0])
}

// ---- one reader a kind: the profile with the body's item, where its values are in range. A body is a part of the script, so its length is asked
// by number, and not by an array's type.
// Three of them test a number and store an item by it: one function would be handed the limit, the range test and the table, which are all there is.

// Kind 1: the halves of the register at an address.
fn read_register(body: &[u8], profile: Profile) -> Option<Profile>
    requires { length body.now ≡ 4 }
    ensures { result ≡ register_answer body.now profile }
{
    let address = usize::from(body[0]);
    let data = data_at(body, 1);
    if 119 < address {
        return None;
    }
    let i = 2 * address;
    let low = (data % 4096) as u16;
    let high = (data / 4096) as u16;
    let fits = half_in(i, low) & half_in(i + 1, high);
    if !fits {
        return None;
    }
    let mut after = profile;
    after.tables.registers[i] = low;
    after.tables.registers[i + 1] = high;
    Some(after)
}

fn sequence_from(body: &[u8]) -> Sequence
    requires { length body.now ≡ 14 }
    ensures { result ≡ sequence_from body.now }
{
    Sequence {
        present: true,
        pattern: number_at(body, 2),
        length: number_at(body, 4),
        start: number_at(body, 6),
        odd: number_at(body, 8),
        even: number_at(body, 10),
        mask: number_at(body, 12),
    }
}

// Kind 2: the sequence of a number.
fn read_sequence(body: &[u8], profile: Profile) -> Option<Profile>
    requires { length body.now ≡ 14 }
    ensures { result ≡ sequence_answer body.now profile }
{
    let number = usize::from(number_at(body, 0));
    let sequence = sequence_from(body);
    let fits = (number <= 9) & sequence_in_range(sequence);
    if !fits {
        return None;
    }
    let mut after = profile;
    after.tables.sequences[number] = sequence;
    Some(after)
}

fn gate_from(body: &[u8]) -> Gate
    requires { length body.now ≡ 10 }
    ensures { result ≡ gate_from body.now }
{
    Gate {
        present: true,
        on: number_at(body, 2),
        level: number_at(body, 4),
        toggle1: number_at(body, 6),
        toggle2: number_at(body, 8),
    }
}

// Kind 4: the gate of a number.
fn read_gate(body: &[u8], profile: Profile) -> Option<Profile>
    requires { length body.now ≡ 10 }
    ensures { result ≡ gate_answer body.now profile }
{
    let number = usize::from(number_at(body, 0));
    let gate = gate_from(body);
    let fits = (number <= 4) & gate_in_range(gate);
    if !fits {
        return None;
    }
    let mut after = profile;
    after.tables.gates[number] = gate;
    Some(after)
}

fn subck_from(body: &[u8]) -> Subck
    requires { length body.now ≡ 10 }
    ensures { result ≡ subck_from body.now }
{
    Subck {
        present: true,
        level: number_at(body, 0),
        toggle1: number_at(body, 2),
        toggle2: number_at(body, 4),
        suppressed: number_at(body, 6),
        count: number_at(body, 8),
    }
}

// Kind 5: SUBCK.
fn read_subck(body: &[u8], profile: Profile) -> Option<Profile>
    requires { length body.now ≡ 10 }
    ensures { result ≡ subck_answer body.now profile }
{
    let subck = subck_from(body);
    if !subck_in_range(subck) {
        return None;
    }
    let mut after = profile;
    after.tables.subck = subck;
    Some(after)
}

fn shutter_from(body: &[u8]) -> Shutter
    requires { length body.now ≡ 12 }
    ensures { result ≡ shutter_from body.now }
{
    Shutter {
        present: true,
        active: number_at(body, 2),
        on_line: number_at(body, 4),
        on_pixel: number_at(body, 6),
        off_line: number_at(body, 8),
        off_pixel: number_at(body, 10),
    }
}

// Kind 6: MSHUT or STROBE.
fn read_shutter(body: &[u8], profile: Profile) -> Option<Profile>
    requires { length body.now ≡ 12 }
    ensures { result ≡ shutter_answer body.now profile }
{
    let number = usize::from(number_at(body, 0));
    let shutter = shutter_from(body);
    let fits = (number <= 1) & shutter_in_range(shutter);
    if !fits {
        return None;
    }
    let mut after = profile;
    after.tables.shutters[number] = shutter;
    Some(after)
}

// ---- a field's regions

// The bytes of a field's body before its regions, by whether a second gate line is among them.
pub(crate) fn head_length(two: bool) -> usize
    ensures value { result ≡ head_length two }
    ensures lower_bound { (10 ≤ result) × (result ≤ 12) }
{
    if two { 12 } else { 10 }
}

// Whether a field's body of this length has the form with, or without, a second gate line.
fn has_form(two: bool, length: usize) -> bool
    ensures { result ≡ has_form two length }
{
    let head = head_length(two);
    if length < head + REGION {
        return false;
    }
    (length <= head + REGION * 7) & ((length - head) % REGION == 0)
}

// Region i of a field's body, after a head of so many bytes, where its numbers are in range.
fn region_from(body: &[u8], head: usize, i: usize) -> Option<Region>
    requires { region_start head (i + 1) ≤ length body.now }
    ensures { result ≡ region_answer head body.now i }
{
    let at = head + REGION * i;
    let number = number_at(body, at + 4);
    let region = Region {
        first: number_at(body, at),
        sequence: number_at(body, at + 2),
        mode: Mode::from(number),
    };
    let fits = (number <= 2) & region_in_range(region);
    if !fits {
        return None;
    }
    Some(region)
}

// The first regions of a field's body and empty ones up to seven, where all that are read are in range.
fn regions_from(body: &[u8], head: usize, count: usize) -> Option<[Region; 7]>
    requires { (head + region_length * count ≤ length body.now) × (count ≤ 7) }
    ensures { result ≡ regions_answer head body.now count }
{
    let mut regions = [empty_region(); 7];
    for i in 0..count {
        regions[i] = region_from(body, head, i)?;
    }
    Some(regions)
}

// The second gate line, where the form has one.
fn gate2_from(body: &[u8], two: bool) -> u16
    requires { head_length two ≤ length body.now }
    ensures { result ≡ cond two (number_at body.now 6) none }
{
    if two { number_at(body, 6) } else { NONE }
}

// The numbers before the regions.
fn head_from(body: &[u8], two: bool) -> Field
    requires { head_length two ≤ length body.now }
    ensures { result ≡ head_from two body.now }
{
    let head = head_length(two);
    Field {
        present: true,
        lines: number_at(body, 0),
        last: number_at(body, 2),
        gate: number_at(body, 4),
        gate2: gate2_from(body, two),
        second: number_at(body, head - 4),
        count: number_at(body, head - 2),
        regions: [empty_region(); 7],
    }
}

// Kind 3: the field, with as many regions as the body has room for.
fn read_field(body: &[u8], profile: Profile) -> Option<Profile>
    requires { head_length (has_form true (length body.now)) ≤ length body.now }
    ensures { result ≡ field_answer body.now profile }
{
    let two = has_form(true, body.len());
    let size = head_length(two);
    let head = head_from(body, two);
    let count = usize::from(head.count);
    let fits = (size + REGION * count == body.len()) & field_in_range(head);
    if !fits {
        return None;
    }
    let regions = regions_from(body, size, count)?;
    let mut after = profile;
    after.field = Field { regions, ..head };
    Some(after)
}

// ---- kinds and faults

// What a record carries.
#[derive(Clone, Copy)]
enum Kind {
    Register,
    Sequence,
    Field,
    Gate,
    Subck,
    Shutter,
}

// What can be wrong with a record: it is cut, its kind is unknown, its kind has no body of this length, or a value of its body is out of range.
#[derive(Clone, Copy)]
pub(crate) enum Fault {
    Cut,
    UnknownKind,
    WrongLength,
    OutOfRange,
}

impl Fault {
    // The number of its refusal.
    pub(crate) fn number(self) -> u16
        ensures { result ≡ fault_number self }
    {
        match self {
            Fault::Cut => 2,
            Fault::UnknownKind => 3,
            Fault::WrongLength => 4,
            Fault::OutOfRange => 5,
        }
    }

    // The refusal of a record at an offset.
    pub(crate) fn at(self, offset: usize) -> Refusal
        ensures { verdict_of result ≡ refused (fault_number self) offset }
    {
        match self {
            Fault::Cut => Refusal::Cut(offset),
            Fault::UnknownKind => Refusal::UnknownKind(offset),
            Fault::WrongLength => Refusal::WrongLength(offset),
            Fault::OutOfRange => Refusal::OutOfRange(offset),
        }
    }
}

fn is_field_length(length: usize) -> bool
    ensures { result ≡ field_length length }
{
    has_form(false, length) | has_form(true, length)
}

impl Kind {
    // Whether a body of this length is allowed.
    #[tactic(auto, unfolding(crate::specs::Script::allowed))]
    fn allows(self, length: usize) -> bool
        ensures { result ≡ allowed (kind_number self) length }
    {
        match self {
            Kind::Register => length == 4,
            Kind::Sequence => length == 14,
            Kind::Field => is_field_length(length),
            Kind::Gate | Kind::Subck => length == 10,
            Kind::Shutter => length == 12,
        }
    }

    // The profile with the item of a body.
    #[tactic(auto, unfolding(crate::specs::Script::allowed, crate::specs::Script::fits, crate::specs::Script::with_record), using(crate::proofs::Forms::form_long))]
    fn read(self, body: &[u8], profile: Profile) -> Option<Profile>
        requires { allowed (kind_number self) (length body.now) ≡ true }
        ensures { result ≡ when (fits (kind_number self) body.now) (with_record (kind_number self) body.now profile) }
    {
        match self {
            Kind::Register => read_register(body, profile),
            Kind::Sequence => read_sequence(body, profile),
            Kind::Field => read_field(body, profile),
            Kind::Gate => read_gate(body, profile),
            Kind::Subck => read_subck(body, profile),
            Kind::Shutter => read_shutter(body, profile),
        }
    }
}

// The kind of a number.
fn kind_of(number: u16) -> Result<Kind, Fault>
    ensures { result ≡ kind_of number }
{
    match number {
        1 => Ok(Kind::Register),
        2 => Ok(Kind::Sequence),
        3 => Ok(Kind::Field),
        4 => Ok(Kind::Gate),
        5 => Ok(Kind::Subck),
        6 => Ok(Kind::Shutter),
        _ => Err(Fault::UnknownKind),
    }
}

// ---- one record

// A whole record: its kind, where its body starts and ends.
#[derive(Clone, Copy)]
pub(crate) struct Found {
    kind: Kind,
    start: usize,
    end: usize,
}

// What a record that was taken leaves: the next record's offset, and the profile with this one.
#[derive(Clone, Copy)]
pub(crate) struct Taken {
    next: usize,
    profile: Profile,
}

// The record at an offset, up to the values of its body.
pub(crate) fn found_at(script: &[u8], at: usize) -> Result<Found, Fault>
    ensures { found_told result ≡ found_at script.now at }
{
    let rest = script.len().saturating_sub(at);
    if rest < 4 {
        return Err(Fault::Cut);
    }
    let size = usize::from(number_at(script, at));
    let kind = kind_of(number_at(script, at + 2))?;
    if !kind.allows(size) {
        return Err(Fault::WrongLength);
    }
    if rest < 4 + size {
        return Err(Fault::Cut);
    }
    Ok(Found {
        kind,
        start: at + 4,
        end: at + (4 + size),
    })
}

// One record at an offset of the script, put into the profile. Past the end there is none: it is cut.
fn record_at(script: &[u8], at: usize, profile: Profile) -> Result<Taken, Fault>
    ensures { taken_told at profile result ≡ record_answer script.now at profile }
{
    let found = found_at(script, at)?;
    let body = &script[found.start..found.end];
    match found.kind.read(body, profile) {
        Some(after) => Ok(Taken {
            next: found.end,
            profile: after,
        }),
        None => Err(Fault::OutOfRange),
    }
}

// ---- the reader

// The lent script and a place in it, as one thing: a form that is promised.
#[derive(Clone, Copy)]
struct Reader<'a> {
    script: &'a [u8],
    at: usize,
}

fn open<'a>(script: &'a [u8], at: usize) -> Reader<'a>
    ensures { (result.script ≡ script.entry) × (result.at ≡ at) }
{
    Reader { script, at }
}

// The record at the reader's place, put into the profile.
fn record_here<'a>(reader: Reader<'a>, profile: Profile) -> Result<Taken, Fault>
    ensures { taken_told reader.entry.at profile result ≡ record_answer reader.entry.script.now reader.entry.at profile }
{
    record_at(reader.script, reader.at, profile)
}

// One record, by a reader at an offset of the script.
fn record_by(script: &[u8], at: usize, profile: Profile) -> Result<Taken, Fault>
    ensures { taken_told at profile result ≡ record_answer script.now at profile }
{
    record_here(open(script, at), profile)
}

// ---- all records

// Where reading stopped: at the script's end, or at a record with a fault; and the profile of the records before it.
#[derive(Clone, Copy)]
pub(crate) struct Stop {
    pub(crate) at: usize,
    pub(crate) profile: Profile,
    pub(crate) fault: Option<Fault>,
}

impl Stop {
    // The profile, or the refusal of the record, where the slice that was read starts at an offset of the script.
    pub(crate) fn outcome(self, start: usize) -> Result<Profile, Refusal>
        requires { start + self.at < 2 ^ 64 }
        ensures { read_told result ≡ read_answer (verdict_at (stop_told self).number (start + self.at)) self.profile }
    {
        match self.fault {
            Some(fault) => Err(fault.at(start + self.at)),
            None => Ok(self.profile),
        }
    }
}

// The records from an offset on, up to the script's end or to one with a fault.
pub(crate) fn records_from(script: &[u8], start: usize, profile: Profile) -> Stop
    requires { start ≤ length script.now }
    ensures { stop_told result ≡ reached_answer script.now (reached 0 (drop start script.now) profile) }
{
    let mut profile = profile;
    let mut at = start;
    // A while loop: it goes from record to record, and not by an index.
    while at < script.len() {
        match record_by(script, at, profile) {
            Ok(taken) => {
                profile = taken.profile;
                at = taken.next;
            }
            Err(fault) => {
                return Stop {
                    at,
                    profile,
                    fault: Some(fault),
                };
            }
        }
    }
    Stop {
        at,
        profile,
        fault: None,
    }
}

// The profile of a script's records, or the refusal of the first that has a fault.
pub fn read_records(script: &[u8]) -> Result<Profile, Refusal>
    ensures { read_told result ≡ records 0 0 script.now empty_profile }
{
    records_from(script, 0, empty()).outcome(0)
}

// What is judged of the profile that the records gave (6 to 17).
pub(crate) fn judged(rules: Ruleset, profile: Profile) -> Result<Profile, Refusal>
    ensures { read_told result ≡ read_answer (judge rules profile) profile }
{
    judge(rules, profile)?;
    Ok(profile)
}

// Reads a script: its length (1), its records (2 to 5), then what is judged of the profile (6 to 17).
pub fn read_in(rules: Ruleset, script: &[u8]) -> Result<Profile, Refusal>
    ensures { read_told result ≡ read_script rules script.now }
{
    if MOST_BYTES < script.len() {
        return Err(Refusal::TooLong);
    }
    judged(rules, read_records(script)?)
}

// The same by the newest rules.
pub fn read(script: &[u8]) -> Result<Profile, Refusal>
    ensures { read_told result ≡ read_script newest_rules script.now }
{
    read_in(newest_rules(), script)
}
