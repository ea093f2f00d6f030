// The answer to one case: what an entry point gives for a payload, as text.
ghost use Rattle.std.specs.Prelude.{ℕ, ◌≡◌, ◌+◌, ◌≤◌, List, false, length, drop, is_some, unwrap_or, MatchOption};
ghost use Rattle.profile.specs.Versions.{newest_rules};
ghost use Rattle.profile.specs.Refusals.{verdict_in, read_told};
ghost use Rattle.profile.specs.Rules.{check_profile};
ghost use Rattle.profile.specs.Script.{read_script};
ghost use Rattle.level.specs.Place.{level_answer, locate_answer, next_edge_answer};
ghost use Rattle.holdlist.specs.Compile.{compile_told, Compiles};
ghost use Rattle.holdlist.specs.Play.{play_answer};
ghost use Rattle.holdlist.specs.Text.{printed, Puts};
ghost use Rattle.cases.specs.Raw.{eight_at, raw_length, version_length, versioned_length, rules_at, raw_profile};
ghost use Rattle.cases.specs.Kinds.{verdict_text, edge_numbers, read_text, chunked_text, stated_text, level_text, edge_text, locate_text, write_of, length_at, compile_of, compile_lines, play_text, play_lines, lines_of, letter_of};
ghost use Rattle.cases.specs.Faults.{is_right, answer_text};

use crate::chunks::{STATED, ends_cut, state_of, take_cut};
use crate::raw::{
    RAW, RAW_AND_ONE, VERSION, VERSIONED, VERSIONED_AND_ONE, VERSIONED_AND_TWO, eight_at,
    fill_fours, fill_numbers, has_lists, is_raw, length_at, raw_profile, rules_at,
};
use crate::text::{
    put_case_line, put_counts, put_hex_line, put_profile, put_verdict_line, put_words,
};
use holdlist::ListSize;
use level::{LinePixel, level_in, locate, next_edge_in};
use profile::upload::{answer_in, start};
use profile::{Profile, Refusal, Ruleset, Verdict, accept, empty};

// The verdict of an answer.
fn verdict_in<T: Copy>(answer: Result<T, Refusal>) -> Verdict
    ensures { result ≡ verdict_in answer }
{
    match answer {
        Ok(_) => accept(),
        Err(refusal) => refusal.verdict(),
    }
}

// What was read: the verdict and the profile, which is the empty one where it is refused.
fn put_answered(out: &mut [u8], at: usize, answer: Result<Profile, Refusal>) -> usize
    ensures { Puts (read_text (read_told answer)) out.old at result out.new }
{
    let a = put_verdict_line(out, at, verdict_in(answer), &[]);
    put_profile(out, a, answer.unwrap_or(empty()))
}

fn put_read(out: &mut [u8], at: usize, payload: &[u8]) -> usize
    ensures { Puts (read_text (read_script newest_rules payload.now)) out.old at result out.new }
{
    put_answered(out, at, profile::read(payload))
}

// A script in chunks, from the start.
fn put_chunked(out: &mut [u8], at: usize, payload: &[u8]) -> usize
    ensures { Puts (chunked_text payload.now) out.old at result out.new }
{
    let rules = rules_at(payload, 0);
    let upload = take_cut(start(), payload, VERSION);
    put_answered(out, at, answer_in(rules, upload))
}

// Chunks from a state on.
fn put_stated(out: &mut [u8], at: usize, payload: &[u8]) -> usize
    ensures { Puts (stated_text payload.now) out.old at result out.new }
{
    let rules = rules_at(payload, RAW);
    let upload = take_cut(state_of(payload), payload, STATED);
    put_answered(out, at, answer_in(rules, upload))
}

fn put_check(out: &mut [u8], at: usize, payload: &[u8]) -> usize
    ensures { Puts (verdict_text (check_profile newest_rules (raw_profile payload.now))) out.old at result out.new }
{
    let checked = profile::check(raw_profile(payload));
    put_verdict_line(out, at, verdict_in(checked), &[])
}

fn put_written(out: &mut [u8], at: usize, profile: Profile, slice: &mut [u8]) -> usize
    ensures { Puts (write_of profile slice.old) out.old at result out.new }
{
    let written = profile::write(profile, slice);
    let a = put_verdict_line(out, at, verdict_in(written), &[written.unwrap_or(0) as u64]);
    put_hex_line(out, a, slice)
}

// The slice that is lent is the payload's part after the raw profile.
fn put_write(out: &mut [u8], at: usize, payload: &mut [u8]) -> usize
    ensures { Puts (write_of (raw_profile payload.old) (drop raw_length payload.old)) out.old at result out.new }
{
    let profile = raw_profile(payload);
    let from = payload.len().min(RAW);
    put_written(out, at, profile, &mut payload[from..])
}

fn put_level(out: &mut [u8], at: usize, payload: &[u8]) -> usize
    ensures { Puts (level_text (level_answer (rules_at payload.now raw_length) (raw_profile payload.now) (eight_at payload.now versioned_length) (eight_at payload.now (versioned_length + 8)))) out.old at result out.new }
{
    let line = eight_at(payload, VERSIONED);
    let pixel = eight_at(payload, VERSIONED_AND_ONE);
    let answer = level_in(rules_at(payload, RAW), raw_profile(payload), line, pixel);
    put_verdict_line(
        out,
        at,
        verdict_in(answer),
        &[u64::from(answer.unwrap_or(0))],
    )
}

// Whether there is a next edge, and where.
fn edge_numbers(edge: Option<LinePixel>) -> [u64; 3]
    ensures { result ≡ edge_numbers edge }
{
    match edge {
        Some(there) => [1, there.line, there.pixel],
        None => [0; 3],
    }
}

// The place asked for stands where a level's does.
fn put_edge(out: &mut [u8], at: usize, payload: &[u8]) -> usize
    ensures { Puts (edge_text (next_edge_answer (rules_at payload.now raw_length) (raw_profile payload.now) (eight_at payload.now versioned_length) (eight_at payload.now (versioned_length + 8)))) out.old at result out.new }
{
    let line = eight_at(payload, VERSIONED);
    let pixel = eight_at(payload, VERSIONED_AND_ONE);
    let edge = next_edge_in(rules_at(payload, RAW), raw_profile(payload), line, pixel);
    put_verdict_line(
        out,
        at,
        verdict_in(edge),
        &edge_numbers(edge.unwrap_or(None)),
    )
}

fn put_locate(out: &mut [u8], at: usize, payload: &[u8]) -> usize
    ensures { Puts (locate_text (locate_answer newest_rules (raw_profile payload.now) (eight_at payload.now raw_length))) out.old at result out.new }
{
    let located = locate(raw_profile(payload), eight_at(payload, RAW));
    let there = located.unwrap_or(LinePixel { line: 0, pixel: 0 });
    put_verdict_line(out, at, verdict_in(located), &[there.line, there.pixel])
}

// The compile that is asked: pixel by pixel, or from edge to edge. Both have the same answers. The engines of `holdlist` are its own.
trait Engine {
    fn compile(
        rules: Ruleset,
        profile: Profile,
        counts: &mut [u32],
        words: &mut [u16],
    ) -> Result<ListSize, Refusal>
        ensures { Compiles rules profile counts.old words.old (compile_told result) counts.new words.new };
}

struct Pixels;

struct Edges;

impl Engine for Pixels {
    fn compile(
        rules: Ruleset,
        profile: Profile,
        counts: &mut [u32],
        words: &mut [u16],
    ) -> Result<ListSize, Refusal> {
        holdlist::compile_in(rules, profile, counts, words)
    }
}

impl Engine for Edges {
    fn compile(
        rules: Ruleset,
        profile: Profile,
        counts: &mut [u32],
        words: &mut [u16],
    ) -> Result<ListSize, Refusal> {
        holdlist::compile_edges_in(rules, profile, counts, words)
    }
}

fn put_compiled<E: Engine>(
    out: &mut [u8],
    at: usize,
    rules: Ruleset,
    profile: Profile,
    counts: &mut [u32],
    words: &mut [u16],
) -> usize
    ensures { Puts (compile_of rules profile counts.old words.old) out.old at result out.new }
{
    let compiled = E::compile(rules, profile, counts, words);
    let size = compiled.unwrap_or(ListSize {
        steps: 0,
        pixels: 0,
    });
    let a = put_verdict_line(
        out,
        at,
        verdict_in(compiled),
        &[size.steps as u64, size.pixels],
    );
    let b = put_counts(out, a, counts);
    put_words(out, b, words)
}

// Fills the lists from the payload and compiles into them: in `play_from` the places are others, and two lines are what both have.
fn compile_into<E: Engine>(
    out: &mut [u8],
    at: usize,
    payload: &[u8],
    counts: &mut [u32],
    words: &mut [u16],
) -> usize
    requires { (length counts.old ≤ 4096) × (length words.old ≤ 4096) }
    ensures { Puts (compile_lines (length counts.old) (length words.old) payload.now) out.old at result out.new }
{
    let profile = raw_profile(payload);
    let rules = rules_at(payload, RAW);
    fill_fours(counts, payload, VERSIONED_AND_ONE);
    fill_numbers(words, payload, VERSIONED_AND_ONE + 4 * counts.len());
    put_compiled::<E>(out, at, rules, profile, counts, words)
}

fn put_compile<E: Engine>(out: &mut [u8], at: usize, payload: &[u8]) -> usize
    ensures { Puts (compile_lines (length_at payload.now versioned_length) (length_at payload.now (versioned_length + 4)) payload.now) out.old at result out.new }
{
    let mut counts = [0; 4096];
    let mut words = [0; 4096];
    let c = length_at(payload, VERSIONED);
    let w = length_at(payload, VERSIONED + 4);
    compile_into::<E>(out, at, payload, &mut counts[..c], &mut words[..w])
}

// What the program prints for a script, by a version.
fn put_text(out: &mut [u8], at: usize, payload: &[u8]) -> usize
    ensures { Puts (printed (rules_at payload.now 0) (drop version_length payload.now)) out.old at result out.new }
{
    let rules = rules_at(payload, 0);
    let from = payload.len().min(VERSION);
    holdlist::put_text_in(out, at, rules, &payload[from..])
}

fn put_played(
    out: &mut [u8],
    at: usize,
    counts: &[u32],
    words: &[u16],
    used: u64,
    position: u64,
) -> usize
    ensures { Puts (play_text (play_answer counts.now words.now used position)) out.old at result out.new }
{
    let played = holdlist::play(counts, words, used as usize, position);
    put_verdict_line(
        out,
        at,
        verdict_in(played),
        &[u64::from(played.unwrap_or(0))],
    )
}

// Fills the lists from the payload and plays them.
fn play_from(
    out: &mut [u8],
    at: usize,
    payload: &[u8],
    counts: &mut [u32],
    words: &mut [u16],
) -> usize
    requires { (length counts.old ≤ 4096) × (length words.old ≤ 4096) }
    ensures { Puts (play_lines (length counts.old) (length words.old) payload.now) out.old at result out.new }
{
    let used = eight_at(payload, 8);
    let position = eight_at(payload, 16);
    fill_fours(counts, payload, 24);
    fill_numbers(words, payload, 24 + 4 * counts.len());
    put_played(out, at, counts, words, used, position)
}

fn put_play(out: &mut [u8], at: usize, payload: &[u8]) -> usize
    ensures { Puts (play_lines (length_at payload.now 0) (length_at payload.now 4) payload.now) out.old at result out.new }
{
    let mut counts = [0; 4096];
    let mut words = [0; 4096];
    let c = length_at(payload, 0);
    let w = length_at(payload, 4);
    play_from(out, at, payload, &mut counts[..c], &mut words[..w])
}

// What a case asks.
#[derive(Clone, Copy)]
enum Kind {
    Read,
    Chunked,
    Stated,
    Check,
    Write,
    Level,
    NextEdge,
    Locate,
    Compile,
    CompileEdges,
    Text,
    Play,
}

// The kind of a letter.
fn kind_of(letter: u8) -> Option<Kind>
    ensures { MatchOption result ((b : List ℕ) → is_right letter b ≡ false) (λ kind. letter ≡ letter_of kind) }
{
    match letter {
        b'R' => Some(Kind::Read),
        b'U' => Some(Kind::Chunked),
        b'V' => Some(Kind::Stated),
        b'C' => Some(Kind::Check),
        b'W' => Some(Kind::Write),
        b'L' => Some(Kind::Level),
        b'E' => Some(Kind::NextEdge),
        b'N' => Some(Kind::Locate),
        b'K' => Some(Kind::Compile),
        b'J' => Some(Kind::CompileEdges),
        b'T' => Some(Kind::Text),
        b'P' => Some(Kind::Play),
        _ => None,
    }
}

// Whether a payload has exactly what its kind asks for.
fn is_right(kind: Kind, payload: &[u8]) -> bool
    ensures { result ≡ is_right (letter_of kind) payload.now }
{
    match kind {
        Kind::Read => payload.len() <= 40000,
        Kind::Chunked => ends_cut(payload, VERSION),
        Kind::Stated => is_raw(payload) & ends_cut(payload, STATED),
        Kind::Check => is_raw(payload) & (payload.len() == RAW),
        Kind::Write => is_raw(payload),
        Kind::Level | Kind::NextEdge => is_raw(payload) & (payload.len() == VERSIONED_AND_TWO),
        Kind::Locate => is_raw(payload) & (payload.len() == RAW_AND_ONE),
        Kind::Compile | Kind::CompileEdges => {
            is_raw(payload) & has_lists(payload, VERSIONED, VERSIONED_AND_ONE)
        }
        Kind::Text => (VERSION <= payload.len()) & (payload.len() <= 40002),
        Kind::Play => has_lists(payload, 0, 24),
    }
}

#[tactic(auto, unfolding(crate::specs::Kinds::lines_of))]
fn put_lines(out: &mut [u8], at: usize, kind: Kind, payload: &mut [u8]) -> usize
    ensures { Puts (lines_of (letter_of kind) payload.old) out.old at result out.new }
{
    match kind {
        Kind::Read => put_read(out, at, payload),
        Kind::Chunked => put_chunked(out, at, payload),
        Kind::Stated => put_stated(out, at, payload),
        Kind::Check => put_check(out, at, payload),
        Kind::Write => put_write(out, at, payload),
        Kind::Level => put_level(out, at, payload),
        Kind::NextEdge => put_edge(out, at, payload),
        Kind::Locate => put_locate(out, at, payload),
        Kind::Compile => put_compile::<Pixels>(out, at, payload),
        Kind::CompileEdges => put_compile::<Edges>(out, at, payload),
        Kind::Text => put_text(out, at, payload),
        Kind::Play => put_play(out, at, payload),
    }
}

// The answer to case k, its first line and those of its kind: its length, or none where the payload is at fault.
pub(crate) fn put_answer(out: &mut [u8], k: u64, letter: u8, payload: &mut [u8]) -> Option<usize>
    ensures answered { is_some result ≡ is_right letter payload.old }
    ensures text { Puts (answer_text k letter payload.old) out.old 0 (unwrap_or result 0) out.new }
{
    let kind = kind_of(letter)?;
    if !is_right(kind, payload) {
        return None;
    }
    let at = put_case_line(out, k, letter);
    Some(put_lines(out, at, kind, payload))
}
