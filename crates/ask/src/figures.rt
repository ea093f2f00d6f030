// The figures of a refusal: the four numbers that its sentence tells besides those that are printed.
ghost use Rattle.std.specs.Prelude.{◌≡◌, cond, ◌+◌, ◌*◌, ◌<◌, ltb, length};
ghost use Rattle.profile.specs.Bytes.{number_at};
ghost use Rattle.profile.specs.Values.{empty_profile, refused_toggle};
ghost use Rattle.profile.specs.Script.{records};
ghost use Rattle.profile.specs.Refusals.{verdict_of};
ghost use Rattle.profile.specs.Geometry.{first_line, sequence_at, gate_of, gate_length, shutter_of};
ghost use Rattle.ask.specs.Figures.{four_figures, figures, record_figures, run_figures, toggle_of, toggle_figures, profile_figures, figures_by, figures_of};

use crate::question::byte_at;
use profile::{
    Field, Pattern, Profile, Refusal, Tables, empty, gate_length, gate_of, pattern_of, read,
    read_records, region_at, region_size, rows_of, sequence_at, shutter_of,
};

#[derive(Clone, Copy, Default)]
pub struct Figures {
    pub first: u64,
    pub second: u64,
    pub third: u64,
    pub fourth: u64,
}

// Two numbers that a sum, a product or a length may be.
fn two(first: u64, second: u64) -> Figures
    ensures { result ≡ figures first second 0 }
{
    Figures {
        first,
        second,
        ..Figures::default()
    }
}

// Three numbers of a profile.
fn three(first: u16, second: u16, third: u16) -> Figures
    ensures { result ≡ figures first second third }
{
    Figures {
        first: u64::from(first),
        second: u64::from(second),
        third: u64::from(third),
        fourth: 0,
    }
}

// ---- of the record at a place

// The number of two bytes; a byte that is not there is 0.
fn number_at(s: &[u8], at: usize) -> u16
    requires { at < 65536 }
    ensures { result ≡ number_at s.now at }
{
    u16::from_le_bytes([byte_at(s, at), byte_at(s, at + 1)])
}

// How many bytes a record needs: its head, and its body where the head is whole.
fn needed(rest: &[u8]) -> u64
    ensures { result ≡ cond (ltb (length rest.now) 4) 4 (4 + number_at rest.now 0) }
{
    if rest.len() < 4 {
        return 4;
    }
    4 + u64::from(number_at(rest, 0))
}

// 2, of the script from the record on.
#[tactic(auto, unfolding(crate::specs::Figures::record_figures))]
fn cut_figures(rest: &[u8]) -> Figures
    ensures { result ≡ record_figures 2 rest.now }
{
    two(rest.len() as u64, needed(rest))
}

// 3 to 5, of the script from the record on.
fn head_figures(rest: &[u8]) -> Figures
    ensures { result ≡ figures (number_at rest.now 2) (number_at rest.now 0) 0 }
{
    three(number_at(rest, 2), number_at(rest, 0), 0)
}

// ---- of a region

// start + repetitions × length: a sum that cannot wrap.
fn run_end(start: u16, times: u16, length: u16) -> u64
    ensures { result ≡ start + times * length }
{
    u64::from(start) + u64::from(times) * u64::from(length)
}

// 13.
#[tactic(auto, unfolding(crate::specs::Figures::run_figures))]
fn run_figures(tables: Tables, field: Field, i: usize) -> Figures
    ensures { result ≡ run_figures tables field i }
{
    let sequence = sequence_at(tables, field, i);
    let pattern = pattern_of(tables.registers, sequence.pattern);
    two(
        run_end(sequence.start, sequence.odd, pattern.length),
        region_size(tables, field, i),
    )
}

// Toggle j of output k, both counted from 1, where 0 counts as 1; 0 where there is none.
fn toggle_of(pattern: Pattern, k: u16, j: u16) -> u16
    ensures { result ≡ toggle_of pattern k j }
{
    let output = usize::from(k.saturating_sub(1));
    let toggle = usize::from(j.saturating_sub(1));
    let rows = rows_of(pattern.toggles);
    let row = rows.get(output).copied().unwrap_or([0; 3]);
    row.get(toggle).copied().unwrap_or(0)
}

// 10, of output k and its toggle j.
#[tactic(auto, unfolding(crate::specs::Figures::toggle_figures))]
fn toggle_figures(tables: Tables, field: Field, i: usize, k: u16, j: u16) -> Figures
    ensures { result ≡ toggle_figures tables field (refused_toggle i k j) }
{
    let number = sequence_at(tables, field, i).pattern;
    let pattern = pattern_of(tables.registers, number);
    three(
        toggle_of(pattern, k, j.saturating_sub(1)),
        toggle_of(pattern, k, j),
        number,
    )
}

// 7.
fn start_figures(field: Field, i: usize) -> Figures
    ensures { result ≡ figures (first_line field i) field.lines 0 }
{
    three(region_at(field, i).first, field.lines, 0)
}

// 12.
fn count_figures(tables: Tables, field: Field, i: usize) -> Figures
    ensures { result ≡ figures (sequence_at tables field i).odd (sequence_at tables field i).even 0 }
{
    let sequence = sequence_at(tables, field, i);
    three(sequence.odd, sequence.even, 0)
}

// 9 and 11.
fn pattern_figures(tables: Tables, field: Field, i: usize) -> Figures
    ensures { result ≡ figures (sequence_at tables field i).pattern (sequence_at tables field i).mask 0 }
{
    let sequence = sequence_at(tables, field, i);
    three(sequence.pattern, sequence.mask, 0)
}

// ---- of the field

// 14.
fn line_figures(field: Field) -> Figures
    ensures { result ≡ four_figures field.gate field.gate2 field.lines field.second }
{
    Figures {
        first: u64::from(field.gate),
        second: u64::from(field.gate2),
        third: u64::from(field.lines),
        fourth: u64::from(field.second),
    }
}

// 15.
fn gate_figures(tables: Tables, field: Field, i: usize) -> Figures
    ensures { result ≡ figures (gate_of tables i).toggle1 (gate_of tables i).toggle2 (gate_length tables field) }
{
    let gate = gate_of(tables, i);
    three(gate.toggle1, gate.toggle2, gate_length(tables, field))
}

// 16.
fn subck_figures(tables: Tables) -> Figures
    ensures { result ≡ figures tables.subck.toggle1 tables.subck.toggle2 tables.subck.suppressed }
{
    let subck = tables.subck;
    three(subck.toggle1, subck.toggle2, subck.suppressed)
}

// 17.
fn shutter_figures(tables: Tables, i: usize) -> Figures
    ensures { result ≡ figures (shutter_of tables i).on_line (shutter_of tables i).off_line 0 }
{
    let shutter = shutter_of(tables, i);
    three(shutter.on_line, shutter.off_line, 0)
}

// ---- of a script

// What the records give; the empty profile where they are at fault.
fn profile_of(script: &[u8]) -> Profile
    ensures { result ≡ (records 0 0 script.now empty_profile).profile }
{
    read_records(script).unwrap_or(empty())
}

// 7 to 17, of a profile. Judging names no other refusal; those before 7 are told as 11 is, those after 17 as 17.
#[tactic(auto, unfolding(crate::specs::Figures::region_figures, crate::specs::Figures::field_figures))]
fn profile_figures(profile: Profile, refusal: Refusal) -> Figures
    ensures { result ≡ profile_figures profile (verdict_of refusal) }
{
    let Profile { tables, field } = profile;
    match refusal {
        Refusal::TooLong | Refusal::NoField => pattern_figures(tables, field, 0),
        Refusal::Cut(i) | Refusal::UnknownKind(i) => pattern_figures(tables, field, i),
        Refusal::WrongLength(i) | Refusal::OutOfRange(i) => pattern_figures(tables, field, i),
        Refusal::RegionStart(i) => start_figures(field, i),
        Refusal::NoSequence(i) => three(region_at(field, i).sequence, 0, 0),
        Refusal::NoPattern(i) | Refusal::Mask(i) => pattern_figures(tables, field, i),
        Refusal::ToggleOrder(i, output, toggle) => toggle_figures(tables, field, i, output, toggle),
        Refusal::Counts(i) => count_figures(tables, field, i),
        Refusal::RunEnd(i) => run_figures(tables, field, i),
        Refusal::GateLine => line_figures(field),
        Refusal::GatePulse(i) => gate_figures(tables, field, i),
        Refusal::SubckPulse => subck_figures(tables),
        Refusal::ShutterSpan(i) | Refusal::NoRoom(i) => shutter_figures(tables, i),
        Refusal::NoPixel | Refusal::NoStep => shutter_figures(tables, 0),
    }
}

// Of a script and why it is refused. Its records are read once more only where a rule over the profile is broken.
#[tactic(auto, using(profile::proofs::Laws::rest_dropped), unfolding(crate::specs::Figures::figures_by, crate::specs::Figures::record_figures))]
fn figures_by(script: &[u8], refusal: Refusal) -> Figures
    ensures { result ≡ figures_by script.now (verdict_of refusal) }
{
    match refusal {
        Refusal::TooLong | Refusal::NoField => Figures::default(),
        Refusal::Cut(at) => cut_figures(&script[at.min(script.len())..]),
        Refusal::UnknownKind(at) | Refusal::WrongLength(at) | Refusal::OutOfRange(at) => {
            head_figures(&script[at.min(script.len())..])
        }
        _ => profile_figures(profile_of(script), refusal),
    }
}

// The figures of what reading a script answers.
#[tactic(auto, unfolding(crate::specs::Figures::figures_of, crate::specs::Figures::figures_by))]
pub(crate) fn figures_of(script: &[u8]) -> Figures
    ensures { result ≡ figures_of script.now }
{
    match read(script) {
        Ok(_) => Figures::default(),
        Err(refusal) => figures_by(script, refusal),
    }
}
