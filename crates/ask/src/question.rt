// A question: a letter and, after a space each, its numbers.
ghost use Rattle.std.specs.Prelude.{ℕ, List, ◌≡◌, ◌&&◌, ◌+◌, ◌≤◌, min, length, get_or, cond, Some, None};
ghost use Rattle.holdlist.specs.Text.{value_of};
ghost use Rattle.ask.specs.Answer.{answer_of};
ghost use Rattle.ask.specs.Short.{parsed_text};
ghost use Rattle.ask.specs.Question.{end_of, before as beforeText, after as afterText, is_number, numbers_of as numbersText, first_of, second_of, alone as aloneLine, with_one, with_two};

// ---- parts

pub(crate) fn byte_at(bytes: &[u8], at: usize) -> u8
    ensures { result ≡ get_or bytes.now at 0 }
{
    bytes.get(at).copied().unwrap_or(0)
}

// Where the byte c stands first; the length where it does not stand.
pub(crate) fn end_of(bytes: &[u8], c: u8) -> usize
    ensures value { result ≡ end_of c bytes.now }
    ensures upper_bound { result ≤ length bytes.now }
{
    bytes.iter().position(|b| *b == c).unwrap_or(bytes.len())
}

// Where what comes after an end begins: one further, if that is inside.
pub(crate) fn after_end(length: usize, end: usize) -> usize
    ensures { result ≡ min (end + 1) length }
{
    end.saturating_add(1).min(length)
}

// ---- numbers

// Digits, one at least.
fn is_number(bytes: &[u8]) -> bool
    ensures { result ≡ is_number bytes.now }
{
    !bytes.is_empty() && bytes.iter().all(|b| b.is_ascii_digit())
}

// Numbers are cut at a million millions, more than any field has lines or pixels.
const MOST: u64 = 1000000000000;

#[tactic(auto, using(crate::proofs::Asking::value_none, crate::proofs::Asking::value_next))]
fn value_of(digits: &[u8]) -> u64
    ensures { result ≡ min (value_of digits.now) 1000000000000 }
{
    let mut value: u64 = 0;
    for d in digits {
        value = (10 * value + u64::from(d.saturating_sub(b'0'))).min(MOST);
    }
    value
}

// ---- what stands behind the letter: nothing, a number, or two with a space between

#[tactic(auto, unfolding(crate::specs::Question::alone))]
fn alone(line: &[u8]) -> bool
    ensures { result ≡ aloneLine line.now }
{
    line.len() == 1
}

fn number(bytes: &[u8]) -> Option<u64>
    ensures { result ≡ cond (is_number bytes.now) (Some (min (value_of bytes.now) 1000000000000)) None }
{
    is_number(bytes).then(|| value_of(bytes))
}

fn two_numbers(bytes: &[u8]) -> Option<(u64, u64)>
    ensures { result ≡ cond (is_number (beforeText 32 bytes.now) && is_number (afterText 32 bytes.now)) (Some (min (value_of (beforeText 32 bytes.now)) 1000000000000, min (value_of (afterText 32 bytes.now)) 1000000000000)) None }
{
    let end = end_of(bytes, b' ');
    let from = after_end(bytes.len(), end);
    Some((number(&bytes[..end])?, number(&bytes[from..])?))
}

#[tactic(auto, using(profile::proofs::Laws::rest_dropped), unfolding(crate::specs::Question::with_one))]
fn number_of(line: &[u8]) -> Option<u64>
    ensures { result ≡ cond (with_one line.now) (Some (min (value_of (numbersText line.now)) 1000000000000)) None }
{
    if byte_at(line, 1) != b' ' {
        return None;
    }
    let from = after_end(line.len(), 1);
    number(&line[from..])
}

// One number or two: the test of the space is all that both have.
#[tactic(auto, using(profile::proofs::Laws::rest_dropped), unfolding(crate::specs::Question::with_two))]
fn numbers_of(line: &[u8]) -> Option<(u64, u64)>
    ensures { result ≡ cond (with_two line.now) (Some (min (value_of (first_of line.now)) 1000000000000, min (value_of (second_of line.now)) 1000000000000)) None }
{
    if byte_at(line, 1) != b' ' {
        return None;
    }
    let from = after_end(line.len(), 1);
    two_numbers(&line[from..])
}

// ---- what a line asks

// Of an accepted script's profile: a check, the script as it is written, the level at a line and pixel, the place of a field pixel, the next edge
// after a line and pixel.
#[derive(Clone, Copy)]
pub(crate) enum ProfileQuestion {
    Check,
    Write,
    Level(u64, u64),
    Locate(u64),
    Edge(u64, u64),
}

#[derive(Clone, Copy)]
pub(crate) enum Question {
    OfProfile(ProfileQuestion),
    Figures,
}

// A letter with its numbers; no question where they are not right for it.
#[tactic(auto, using(crate::proofs::Cutting::level_asked_lem, crate::proofs::Cutting::locate_asked_lem, crate::proofs::Cutting::edge_asked_lem), unfolding(crate::specs::Answer::answer_of))]
pub(crate) fn parse(line: &[u8]) -> Option<Question>
    ensures { (script : List ℕ) → parsed_text result script ≡ answer_of line.now script }
{
    let question = match byte_at(line, 0) {
        b'C' if alone(line) => ProfileQuestion::Check,
        b'W' if alone(line) => ProfileQuestion::Write,
        b'L' => {
            let (line, pixel) = numbers_of(line)?;
            ProfileQuestion::Level(line, pixel)
        }
        b'N' => ProfileQuestion::Locate(number_of(line)?),
        b'E' => {
            let (line, pixel) = numbers_of(line)?;
            ProfileQuestion::Edge(line, pixel)
        }
        b'F' if alone(line) => return Some(Question::Figures),
        _ => return None,
    };
    Some(Question::OfProfile(question))
}
