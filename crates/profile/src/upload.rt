// Reading a script that arrives in chunks of any length. The state goes in and comes back by value, and is of one size whatever has arrived:
// it holds the bytes of the record that is not whole yet, and the profile of those before it. A chunk takes time by its own length.
ghost use Rattle.std.specs.Prelude.{◌≡◌, true, false, ◌||◌, ◌+◌, ◌≤◌, ltb, length, take as front, drop};
ghost use Rattle.profile.specs.Script.{most_bytes};
ghost use Rattle.profile.specs.Versions.{newest_rules};
ghost use Rattle.profile.specs.Refusals.{read_told};
ghost use Rattle.profile.specs.Upload.{
  held_bytes,
  arrived,
  is_refused,
  refused_at,
  waits,
  stopped_at,
  counted,
  take_chunk,
  start_upload,
  upload_answer,
};
ghost use Rattle.profile.specs.Reading.{fault_number, fault_in, cut_front, filled as filledWith, filled_answer, filled_arrival, held_refusal};

use crate::records::{Fault, MOST_BYTES, found_at, judged, number_at, records_from};
use crate::versions::newest_rules;
use crate::{Profile, Refusal, Ruleset, empty};

// What has arrived: how many bytes, as far as 16,385; the first refusal, 3, 4 or 5, and its place, else 0 and 0; how many bytes of the record that
// is not whole yet are held, and these, in front of whatever stood there. 58 is the longest record.
// The refusal stands by its numbers: the state is handed in, any numbers may stand in it, and `take_chunk` and `upload_answer` say what each gives.
// `held` counts the bytes beside them: there is no heap, and a state is of one size.
#[derive(Clone, Copy)]
pub struct Arrival {
    pub length: usize,
    pub number: u16,
    pub place: u64,
    pub held: usize,
    pub bytes: [u8; 58],
}

// The state: what has arrived, and the profile of the records that were taken.
#[derive(Clone, Copy)]
pub struct Upload {
    pub arrival: Arrival,
    pub profile: Profile,
}

// A record with as many bytes of a chunk as it waits for: how many it has now, these, and whether it is still cut.
// No Result: held and bytes are what a record so far is, whole or cut.
#[derive(Clone, Copy)]
pub struct Filled {
    pub held: usize,
    pub bytes: [u8; 58],
    pub cut: bool,
}

// Nothing has arrived.
#[tactic(auto, unfolding(crate::specs::Upload::start_upload))]
pub fn start() -> Upload
    ensures { result ≡ start_upload }
{
    Upload {
        arrival: Arrival {
            length: 0,
            number: 0,
            place: 0,
            held: 0,
            bytes: [0u8; 58],
        },
        profile: empty(),
    }
}

// ---- what a state holds

impl Arrival {
    // How many bytes of a record are held.
    fn held_of(self) -> usize
        ensures { (result ≡ length (held_bytes self)) × (result ≤ 58) }
    {
        let size = number_at(&self.bytes, 0) as usize;
        (4 + size).min(self.held).min(58)
    }

    // The refusal that is held.
    fn refusal(self) -> Option<Refusal>
        ensures { result ≡ held_refusal self }
    {
        let at = self.place as usize;
        match self.number {
            3 => Some(Refusal::UnknownKind(at)),
            4 => Some(Refusal::WrongLength(at)),
            5 => Some(Refusal::OutOfRange(at)),
            _ => None,
        }
    }
}

// The count with so many bytes more, as far as 16,385.
fn count_on(total: usize, more: usize) -> usize
    ensures { result ≡ counted (total + more) }
{
    total.saturating_add(more).min(MOST_BYTES + 1)
}

// ---- a record that arrives in parts

// Whether the first bytes say that their record is cut.
fn is_cut(bytes: &[u8]) -> bool
    ensures { result ≡ cut_front bytes.now }
{
    matches!(found_at(bytes, 0), Err(Fault::Cut))
}

// The record of the first bytes, with as many of those that follow as it waits for.
fn fill(old: [u8; 58], count: usize, more: &[u8]) -> Filled
    requires { count ≤ 58 }
    ensures { result ≡ filled_answer old (filledWith (front count old) more.now) }
{
    let mut bytes = old;
    let mut held = count;
    for &byte in more {
        if !is_cut(&bytes[..held]) {
            return Filled {
                held,
                bytes,
                cut: false,
            };
        }
        bytes[held] = byte;
        held += 1;
    }
    Filled {
        held,
        bytes,
        cut: is_cut(&bytes[..held]),
    }
}

// ---- the state with a chunk more

// What has arrived where a record waits for its rest.
fn waiting(total: usize, filled: Filled) -> Arrival
    ensures { result ≡ filled_arrival total filled }
{
    let bytes = filled.bytes;
    Arrival {
        length: total,
        number: 0,
        place: 0,
        held: filled.held,
        bytes,
    }
}

// What has arrived where a record was refused.
fn refused(total: usize, fault: Fault, place: usize, bytes: [u8; 58]) -> Arrival
    ensures { result ≡ refused_at total (fault_number fault) place bytes }
{
    Arrival {
        length: total,
        number: fault.number(),
        place: place as u64,
        held: 0,
        bytes,
    }
}

// What has arrived where reading stopped at an offset of the chunk: a record that is cut there waits, any other was refused.
fn stopped(total: usize, bytes: [u8; 58], fault: Option<Fault>, chunk: &[u8], at: usize) -> Arrival
    requires at_in_bounds { (at ≤ length chunk.now) × (length chunk.now ≤ total) }
    requires chunk_value { waits (fault_in fault) ≡ true → cut_front (drop at chunk.now) ≡ true }
    ensures { result ≡ stopped_at total bytes (fault_in fault) (drop at chunk.now) }
{
    match fault {
        None | Some(Fault::Cut) => waiting(total, fill(bytes, 0, &chunk[at..])),
        Some(fault) => refused(total, fault, total - (chunk.len() - at), bytes),
    }
}

// The state with a chunk more that has the rest of the record that is held: that record, and then those after it in the chunk.
// By itself, so that a chunk that only adds to what is held makes no room for the profiles here.
fn take_whole(upload: Upload, first: Filled, chunk: &[u8]) -> Upload
    requires few { ltb most_bytes (counted (arrived upload.arrival + length chunk.now)) || is_refused upload.arrival.number ≡ false }
    requires filled { first ≡ filled_answer upload.arrival.bytes (filledWith (held_bytes upload.arrival) chunk.now) }
    requires whole { first.cut ≡ false }
    ensures { result ≡ take_chunk upload chunk.now }
{
    let arrival = upload.arrival;
    let bytes = arrival.bytes;
    let held = arrival.held_of();
    let before = arrival.length.max(held);
    let total = count_on(before, chunk.len());
    let record = records_from(&first.bytes[..first.held], 0, upload.profile);
    if let Some(fault) = record.fault {
        return Upload {
            arrival: refused(total, fault, before - held, bytes),
            profile: upload.profile,
        };
    }
    let rest = records_from(chunk, first.held - held, record.profile);
    Upload {
        arrival: stopped(total, bytes, rest.fault, chunk, rest.at),
        profile: rest.profile,
    }
}

// The state with a chunk more. After a refusal, and past the limit, bytes are only counted.
pub fn take(upload: Upload, chunk: &[u8]) -> Upload
    ensures { result ≡ take_chunk upload chunk.now }
{
    let arrival = upload.arrival;
    let bytes = arrival.bytes;
    let held = arrival.held_of();
    let before = arrival.length.max(held);
    let total = count_on(before, chunk.len());
    let mut after = upload;
    if (MOST_BYTES < total) | arrival.refusal().is_some() {
        after.arrival.length = total;
        return after;
    }
    let first = fill(bytes, held, chunk);
    if first.cut {
        after.arrival = waiting(total, first);
        return after;
    }
    take_whole(upload, first, chunk)
}

// ---- the answer

// What reading all that has arrived as one script gives.
pub fn answer_in(rules: Ruleset, upload: Upload) -> Result<Profile, Refusal>
    ensures { read_told result ≡ upload_answer rules upload }
{
    let arrival = upload.arrival;
    let held = arrival.held_of();
    let total = arrival.length.max(held);
    if MOST_BYTES < total {
        return Err(Refusal::TooLong);
    }
    if let Some(refusal) = arrival.refusal() {
        return Err(refusal);
    }
    let stop = records_from(&arrival.bytes[..held], 0, upload.profile);
    judged(rules, stop.outcome(total - held)?)
}

// The same by the newest rules.
pub fn answer(upload: Upload) -> Result<Profile, Refusal>
    ensures { read_told result ≡ upload_answer newest_rules upload }
{
    answer_in(newest_rules(), upload)
}
