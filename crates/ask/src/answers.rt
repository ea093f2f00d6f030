// The answer to a question about a script, as text from a slice's first byte on. Each function gives the text's length.
ghost use Rattle.std.specs.Prelude.{◌≡◌, ◌≤◌, length, take};
ghost use Rattle.profile.specs.Refusals.{verdict_of};
ghost use Rattle.profile.specs.Writing.{longest_script};
ghost use Rattle.level.specs.Place.{level_told, locate_told, edge_told};
ghost use Rattle.holdlist.specs.Text.{refused_line};
ghost use Rattle.ask.specs.Answer.{accepted_line, word_line, place_line, none_line, figures_line, level_text, locate_text, edge_text, write_text, asked};
ghost use Rattle.ask.specs.Short.{profile_text, question_text, PutsShort};

use crate::figures::{Figures, figures_of};
use crate::question::{ProfileQuestion, Question, after_end, end_of, parse};
use holdlist::{put_byte, put_bytes, put_decimal, put_hex4, put_refused_line};
use level::LinePixel;
use profile::{Profile, Refusal};

// ---- lines

fn put_accepted_line(out: &mut [u8]) -> usize
    ensures { PutsShort accepted_line out.old result out.new }
{
    put_bytes(out, 0, b"accepted\n")
}

// Each answer is of its own type, so each has its own match, with this for its refusal.
fn put_refusal(out: &mut [u8], refusal: Refusal) -> usize
    ensures { PutsShort (refused_line (verdict_of refusal)) out.old result out.new }
{
    put_refused_line(out, 0, refusal.verdict())
}

fn put_word_line(out: &mut [u8], word: u16) -> usize
    ensures { PutsShort (word_line word) out.old result out.new }
{
    let a = put_bytes(out, 0, b"word ");
    let b = put_hex4(out, a, word);
    put_byte(out, b, b'\n')
}

fn put_place_line(out: &mut [u8], there: LinePixel) -> usize
    ensures { PutsShort (place_line there.line there.pixel) out.old result out.new }
{
    let a = put_bytes(out, 0, b"line ");
    let b = put_decimal(out, a, there.line);
    let c = put_bytes(out, b, b" pixel ");
    let d = put_decimal(out, c, there.pixel);
    put_byte(out, d, b'\n')
}

fn put_none_line(out: &mut [u8]) -> usize
    ensures { PutsShort none_line out.old result out.new }
{
    put_bytes(out, 0, b"none\n")
}

fn put_figures_line(out: &mut [u8], figures: Figures) -> usize
    ensures { PutsShort (figures_line figures) out.old result out.new }
{
    let a = put_decimal(out, 0, figures.first);
    let b = put_byte(out, a, b' ');
    let c = put_decimal(out, b, figures.second);
    let d = put_byte(out, c, b' ');
    let e = put_decimal(out, d, figures.third);
    let f = put_byte(out, e, b' ');
    let g = put_decimal(out, f, figures.fourth);
    put_byte(out, g, b'\n')
}

// ---- what the entry points answer

#[tactic(auto, using(crate::proofs::Answering::short_refused), unfolding(crate::specs::Answer::level_text))]
fn put_level_text(out: &mut [u8], answer: Result<u16, Refusal>) -> usize
    ensures { PutsShort (level_text (level_told answer)) out.old result out.new }
{
    match answer {
        Ok(word) => put_word_line(out, word),
        Err(refusal) => put_refusal(out, refusal),
    }
}

#[tactic(auto, using(crate::proofs::Answering::short_refused), unfolding(crate::specs::Answer::locate_text))]
fn put_locate_text(out: &mut [u8], answer: Result<LinePixel, Refusal>) -> usize
    ensures { PutsShort (locate_text (locate_told answer)) out.old result out.new }
{
    match answer {
        Ok(there) => put_place_line(out, there),
        Err(refusal) => put_refusal(out, refusal),
    }
}

#[tactic(auto, using(crate::proofs::Answering::short_refused), unfolding(crate::specs::Answer::edge_text))]
fn put_edge_text(out: &mut [u8], answer: Result<Option<LinePixel>, Refusal>) -> usize
    ensures { PutsShort (edge_text (edge_told answer)) out.old result out.new }
{
    match answer {
        Ok(Some(there)) => put_place_line(out, there),
        Ok(None) => put_none_line(out),
        Err(refusal) => put_refusal(out, refusal),
    }
}

// Room for the longest script.
const LONGEST_SCRIPT: usize = 1314;

fn script_room() -> [u8; LONGEST_SCRIPT]
    ensures { longest_script ≡ length result }
{
    [0; LONGEST_SCRIPT]
}

fn put_write_text(out: &mut [u8], profile: Profile) -> usize
    ensures { PutsShort (write_text profile) out.old result out.new }
{
    let mut room = script_room();
    match profile::write(profile, &mut room) {
        Ok(n) => put_bytes(out, 0, &room[..n]),
        Err(refusal) => put_refusal(out, refusal),
    }
}

// ---- a question's answer

fn put_profile_text(out: &mut [u8], question: ProfileQuestion, profile: Profile) -> usize
    ensures { PutsShort (profile_text question profile) out.old result out.new }
{
    match question {
        ProfileQuestion::Check => put_accepted_line(out),
        ProfileQuestion::Write => put_write_text(out, profile),
        ProfileQuestion::Level(line, pixel) => {
            put_level_text(out, level::level(profile, line, pixel))
        }
        ProfileQuestion::Locate(n) => put_locate_text(out, level::locate(profile, n)),
        ProfileQuestion::Edge(line, pixel) => {
            put_edge_text(out, level::next_edge(profile, line, pixel))
        }
    }
}

// Of a script: its refusal, or what its profile gives; or its refusal's figures.
#[tactic(auto, using(crate::proofs::Answering::of_refused, crate::proofs::Answering::of_accepted))]
fn put_question(out: &mut [u8], question: Question, script: &[u8]) -> usize
    ensures { PutsShort (question_text question script.now) out.old result out.new }
{
    match question {
        Question::OfProfile(question) => match profile::read(script) {
            Ok(profile) => put_profile_text(out, question, profile),
            Err(refusal) => put_refusal(out, refusal),
        },
        Question::Figures => put_figures_line(out, figures_of(script)),
    }
}

// The question is the first line, the script what follows it; nothing is put where the line is no question.
fn put_asked(out: &mut [u8], input: &[u8]) -> usize
    ensures { PutsShort (asked input.now) out.old result out.new }
{
    let end = end_of(input, b'\n');
    if 123 < end {
        return 0;
    }
    let from = after_end(input.len(), end);
    match parse(&input[..end]) {
        Some(question) => put_question(out, question, &input[from..]),
        None => 0,
    }
}

// Puts all that is printed for an input, and gives its length.
pub(crate) fn put_answer(input: &[u8], out: &mut [u8]) -> usize
    requires { length out.old ≡ 1400 }
    ensures upper_bound { result ≤ 1400 }
    ensures out_after { take result out.new ≡ asked input.now }
{
    put_asked(out, input)
}
