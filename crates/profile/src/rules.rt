// The rules over a profile, in their order, and the refusal of the first that is broken.
ghost use Rattle.std.specs.Prelude.{◌≡◌, [], ◌++◌, map, ◌&&◌, ◌+◌, ◌*◌, leb, eqb, get_or};
ghost use Rattle.profile.specs.Lists.{all, chunks};
ghost use Rattle.profile.specs.Patterns.{used};
ghost use Rattle.profile.specs.Geometry.{region_count, gate_lines};
ghost use Rattle.profile.specs.Refusals.{verdict_in};
ghost use Rattle.profile.specs.Versions.{newest_rules};
ghost use Rattle.profile.specs.Rules.{
  first_broken,
  starts_right,
  pairs_right,
  mask_right,
  counts_right,
  ends_right,
  first_ends,
  second_right,
  lines_right,
  gate_right,
  subck_right,
  shutter_right,
  order_entries,
  row_entries,
  run_entries,
  entries_at,
  region_entries,
  line_entries,
  gate_entries,
  subck_entries,
  shutter_entries,
  rules_of,
  judge,
  check_profile,
};

use crate::geometry::{
    gate_length, has_pixel, has_second_line, line_length, product, region_at, region_count,
    region_of, region_size, repetitions, sequence_of,
};
use crate::patterns::{highest_used, is_plain, pattern_of, rows_of, toggle_fault};
use crate::ranges::in_range;
use crate::values::NONE;
use crate::versions::newest_rules;
use crate::{
    Field, Gate, Mode, Pattern, Profile, Refusal, Ruleset, Sequence, Shutter, Subck, Tables,
};

// 7 at one region.
fn starts_right(field: Field, i: usize) -> bool
    ensures { result ≡ starts_right field i }
{
    let region = region_at(field, i);
    if field.lines <= region.first {
        return false;
    }
    if i == 0 {
        return region.first == 0;
    }
    let earlier = region_at(field, i - 1);
    earlier.first < region.first
}

// 7 for all regions.
fn check_order(field: Field) -> Result<(), Refusal>
    ensures { verdict_in result ≡ first_broken (chunks (region_count field) (order_entries field)) }
{
    for i in 0..region_count(field) {
        if !starts_right(field, i) {
            return Err(Refusal::RegionStart(i));
        }
    }
    Ok(())
}

// 10 at region i: the first toggle out of order of the first of six outputs that has one.
fn check_toggles(i: usize, mode: Mode, length: u16, rows: [[u16; 3]; 6]) -> Result<(), Refusal>
    ensures { verdict_in result ≡ first_broken (chunks 6 (λ k. row_entries i (used mode length) (get_or rows k []) k)) }
{
    for k in 0..6 {
        if let Some(toggle) = toggle_fault(mode, length, rows[k]) {
            return Err(Refusal::ToggleOrder(i, k as u16 + 1, toggle));
        }
    }
    Ok(())
}

// 11, plain: the freeze and resume pairs that the mask turns on.
fn pairs_right(mask: u16, pattern: Pattern) -> bool
    ensures { result ≡ pairs_right mask pattern }
{
    let on1 = mask / 1 % 2 == 1;
    let on2 = mask / 2 % 2 == 1;
    (!on1 | (pattern.freeze1 < pattern.resume1))
        & (!on2 | (pattern.freeze2 < pattern.resume2))
        & (!(on1 & on2) | (pattern.resume1 <= pattern.freeze2))
}

// 11.
fn mask_right(mode: Mode, mask: u16, pattern: Pattern) -> bool
    ensures { result ≡ mask_right mode mask pattern }
{
    match mode {
        Mode::Plain => pairs_right(mask, pattern),
        Mode::Sweep => mask == 0,
        Mode::Multiplier => mask == 0,
    }
}

// 12, multiplier: both counts are the highest used toggle.
fn both_are(sequence: Sequence, highest: u16) -> bool
    ensures { result ≡ (eqb sequence.odd highest && eqb sequence.even highest) }
{
    (sequence.odd == highest) & (sequence.even == highest)
}

// 12.
fn counts_right(mode: Mode, sequence: Sequence, pattern: Pattern) -> bool
    ensures { result ≡ counts_right mode sequence pattern }
{
    let t = pattern.toggles;
    match mode {
        Mode::Plain => true,
        Mode::Sweep => sequence.odd == sequence.even,
        Mode::Multiplier => both_are(sequence, highest_used(rows_of(t))),
    }
}

// start + repetitions × length is at most a size: a sum that cannot wrap.
fn run_fits(start: u16, times: u16, length: u16, size: u64) -> bool
    ensures { result ≡ leb (start + times * length) size }
{
    u64::from(start) + product(times, length) <= size
}

// 13.
fn ends_right(mode: Mode, sequence: Sequence, pattern: Pattern, size: u64) -> bool
    ensures { result ≡ ends_right mode sequence pattern size }
{
    match mode {
        Mode::Plain => true,
        Mode::Sweep => run_fits(sequence.start, sequence.odd, pattern.length, size),
        Mode::Multiplier => run_fits(sequence.start, sequence.odd, pattern.length, size),
    }
}

// 11 to 13 of region i, with its mode, its sequence, that sequence's pattern and its size.
fn check_run(
    i: usize,
    mode: Mode,
    sequence: Sequence,
    pattern: Pattern,
    size: u64,
) -> Result<(), Refusal>
    ensures { verdict_in result ≡ first_broken (run_entries i mode sequence pattern size) }
{
    if !mask_right(mode, sequence.mask, pattern) {
        return Err(Refusal::Mask(i));
    }
    if !counts_right(mode, sequence, pattern) {
        return Err(Refusal::Counts(i));
    }
    if !ends_right(mode, sequence, pattern, size) {
        return Err(Refusal::RunEnd(i));
    }
    Ok(())
}

// 8 to 13 of region i, with the same.
fn check_sequence(
    i: usize,
    mode: Mode,
    sequence: Sequence,
    pattern: Pattern,
    size: u64,
) -> Result<(), Refusal>
    ensures { verdict_in result ≡ first_broken (entries_at i mode sequence pattern size) }
{
    if !sequence.present {
        return Err(Refusal::NoSequence(i));
    }
    if pattern.length == 0 {
        return Err(Refusal::NoPattern(i));
    }
    check_toggles(i, mode, pattern.length, rows_of(pattern.toggles))?;
    check_run(i, mode, sequence, pattern, size)
}

// 8 to 13 at one region.
fn check_region(tables: Tables, field: Field, i: usize) -> Result<(), Refusal>
    ensures { verdict_in result ≡ first_broken (region_entries tables field i) }
{
    let region = region_at(field, i);
    let mode = region.mode;
    let sequence = sequence_of(tables, region.sequence);
    let pattern = pattern_of(tables.registers, sequence.pattern);
    let size = region_size(tables, field, i);
    check_sequence(i, mode, sequence, pattern, size)
}

// 8 to 13, region by region.
fn check_regions(tables: Tables, field: Field) -> Result<(), Refusal>
    ensures { verdict_in result ≡ first_broken (chunks (region_count field) (region_entries tables field)) }
{
    for i in 0..region_count(field) {
        check_region(tables, field, i)?;
    }
    Ok(())
}

// 14: the first pattern has ended where the second begins.
fn first_ends(sequence: Sequence, line: u64, first: u16, second: u16) -> bool
    ensures { result ≡ first_ends sequence line first second }
{
    let times = repetitions(sequence, line);
    (times == 0) | run_fits(sequence.start, times, first, u64::from(second))
}

// 14: the second pattern on a gate line.
fn second_right(tables: Tables, field: Field, pattern: Pattern, line: u64) -> bool
    ensures { result ≡ second_right tables field pattern line }
{
    let i = region_of(field, line);
    let region = region_at(field, i);
    let mode = region.mode;
    let sequence = sequence_of(tables, region.sequence);
    let first = pattern_of(tables.registers, sequence.pattern);
    // asked only whether one is out of order: a second pattern has no region, and multiplier uses the same toggles
    let toggles = check_toggles(
        0,
        Mode::Multiplier,
        pattern.length,
        rows_of(pattern.toggles),
    );
    is_plain(mode)
        & (pattern.length != 0)
        & toggles.is_ok()
        & (pattern.length < line_length(tables, field, line))
        & first_ends(sequence, line, first.length, pattern.length)
}

// 14: the second pattern on every gate line.
fn seconds_right(tables: Tables, field: Field, pattern: Pattern) -> bool
    ensures { result ≡ all (map (second_right tables field pattern) (gate_lines field)) }
{
    let first = second_right(tables, field, pattern, u64::from(field.gate));
    if !has_second_line(field) {
        return first;
    }
    first & second_right(tables, field, pattern, u64::from(field.gate2))
}

// 14: the gate lines lie in the field and differ.
fn lines_right(field: Field) -> bool
    ensures { result ≡ lines_right field }
{
    let first = field.gate < field.lines;
    if !has_second_line(field) {
        return first;
    }
    first & (field.gate2 < field.lines) & (field.gate != field.gate2)
}

// 14.
fn check_lines(tables: Tables, field: Field) -> Result<(), Refusal>
    ensures { verdict_in result ≡ first_broken (line_entries tables field) }
{
    if !lines_right(field) {
        return Err(Refusal::GateLine);
    }
    if field.second == NONE {
        return Ok(());
    }
    let pattern = pattern_of(tables.registers, field.second);
    if !seconds_right(tables, field, pattern) {
        return Err(Refusal::GateLine);
    }
    Ok(())
}

// 15 of one gate, on a gate line of the given length.
fn gate_right(gate: Gate, length: u16) -> bool
    ensures { result ≡ gate_right gate length }
{
    !(gate.present & (gate.on == 1)) | ((gate.toggle1 < gate.toggle2) & (gate.toggle2 < length))
}

// 15, by gate.
fn check_gates(tables: Tables, field: Field) -> Result<(), Refusal>
    ensures { verdict_in result ≡ first_broken (chunks 5 (gate_entries tables field)) }
{
    let length = gate_length(tables, field);
    for k in 0..5 {
        if !gate_right(tables.gates[k], length) {
            return Err(Refusal::GatePulse(k));
        }
    }
    Ok(())
}

// 16.
fn subck_right(subck: Subck) -> bool
    ensures { result ≡ subck_right subck }
{
    !subck.present | ((subck.toggle1 < subck.toggle2) & (1 <= subck.suppressed))
}

fn check_subck(tables: Tables) -> Result<(), Refusal>
    ensures { verdict_in result ≡ first_broken (subck_entries tables) }
{
    if !subck_right(tables.subck) {
        return Err(Refusal::SubckPulse);
    }
    Ok(())
}

// 17 of one shutter.
// Which place comes first is said by hand, line and then pixel, as the definition says it.
fn shutter_right(tables: Tables, field: Field, shutter: Shutter) -> bool
    ensures { result ≡ shutter_right tables field shutter }
{
    !shutter.present
        | (has_pixel(
            tables,
            field,
            u64::from(shutter.on_line),
            u64::from(shutter.on_pixel),
        ) & has_pixel(
            tables,
            field,
            u64::from(shutter.off_line),
            u64::from(shutter.off_pixel),
        ) & ((shutter.on_line < shutter.off_line)
            | ((shutter.on_line == shutter.off_line) & (shutter.on_pixel < shutter.off_pixel))))
}

// 17, MSHUT first.
fn check_shutters(tables: Tables, field: Field) -> Result<(), Refusal>
    ensures { verdict_in result ≡ first_broken (chunks 2 (shutter_entries tables field)) }
{
    for k in 0..2 {
        if !shutter_right(tables, field, tables.shutters[k]) {
            return Err(Refusal::ShutterSpan(k));
        }
    }
    Ok(())
}

// 14 to 17.
fn check_late(tables: Tables, field: Field) -> Result<(), Refusal>
    ensures { verdict_in result ≡ first_broken (line_entries tables field ++ (chunks 5 (gate_entries tables field) ++ (subck_entries tables ++ chunks 2 (shutter_entries tables field)))) }
{
    check_lines(tables, field)?;
    check_gates(tables, field)?;
    check_subck(tables)?;
    check_shutters(tables, field)
}

// 7 to 17: the first broken rule of a field.
pub(crate) fn check_rules(rules: Ruleset, tables: Tables, field: Field) -> Result<(), Refusal>
    ensures { verdict_in result ≡ first_broken (rules_of rules tables field) }
{
    check_order(field)?;
    check_regions(tables, field)?;
    check_late(tables, field)
}

// 6, then 7 to 17.
pub(crate) fn judge(rules: Ruleset, profile: Profile) -> Result<(), Refusal>
    ensures { verdict_in result ≡ judge rules profile }
{
    let field = profile.field;
    if !field.present {
        return Err(Refusal::NoField);
    }
    let tables = profile.tables;
    check_rules(rules, tables, field)
}

// Checks a profile handed in: its ranges (5), then 6 to 17.
pub fn check_in(rules: Ruleset, profile: Profile) -> Result<(), Refusal>
    ensures { verdict_in result ≡ check_profile rules profile }
{
    if !in_range(profile) {
        return Err(Refusal::OutOfRange(0));
    }
    judge(rules, profile)
}

// The same by the newest rules.
pub fn check(profile: Profile) -> Result<(), Refusal>
    ensures { verdict_in result ≡ check_profile newest_rules profile }
{
    check_in(newest_rules(), profile)
}
