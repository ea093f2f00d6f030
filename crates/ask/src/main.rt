// Reads a question and a script from standard input and prints the answer. specs/Question.antt and specs/Answer.antt have the questions.
#![tactic(auto)]

mod answers;
mod figures;
mod question;

ghost use Rattle.std.specs.Prelude.{◌≡◌, ◌+◌, length};
ghost use Rattle.profile.specs.Script.{most_bytes};

use crate::answers::put_answer;
use std::io::{ErrorKind, Input};
use std::process::ExitCode;

// The status, as a shell tells it, of a program that the signal of a closed pipe ended.
const CLOSED_PIPE: u8 = 141;

// As in `booth`, with other sentences: what both share would be handed them all. Every question that there is has an answer. A write that fails is said on standard error; where nobody listens any more, nothing is said.
fn print_answer(rt: &(impl Print + Eprint), input: &[u8]) -> ExitCode {
    // Room for the longest answer, the longest script.
    let mut text = [0; 1400];
    let n = put_answer(input, &mut text);
    // no text, no question: the definition prints nothing exactly where the line is none
    if n == 0 {
        let _ = rt.eprintln("ask: no such question");
        return ExitCode::SUCCESS;
    }
    match rt.write_all(&text[..n]) {
        Ok(()) => ExitCode::SUCCESS,
        Err(error) if error.kind() == ErrorKind::BrokenPipe => ExitCode::from(CLOSED_PIPE),
        Err(_) => {
            let _ = rt.eprintln("ask: cannot write standard output");
            ExitCode::SUCCESS
        }
    }
}

// Reads into a room for a question of 123 bytes, its end, and one byte more than the longest script, so that a longer one is seen to be longer, and
// prints the answer.
fn answer_input(rt: &(impl Input + Print + Eprint), input: &mut [u8]) -> ExitCode
    requires { length input.old ≡ 124 + (most_bytes + 1) }
{
    match standard_input::read_all(rt, input) {
        Ok(n) => print_answer(rt, &input[..n]),
        Err(_) => {
            let _ = rt.eprintln("ask: cannot read standard input");
            ExitCode::SUCCESS
        }
    }
}

fn main(rt: HostRuntime) -> ExitCode {
    let mut input = [0; 16509];
    answer_input(&rt, &mut input)
}
