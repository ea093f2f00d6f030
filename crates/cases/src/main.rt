// Reads a batch of cases from standard input and prints what the entry points answer. tests/cases/FORMAT.md has the format of both.
#![tactic(auto)]

mod answers;
mod chunks;
mod raw;
mod text;

ghost use Rattle.std.specs.Prelude.{◌≡◌, length};

use crate::answers::put_answer;
use crate::raw::four_at;
use standard_input::read_all;
use std::io::{ErrorKind, Input};
use std::process::ExitCode;

// The status, as a shell tells it, of a program that the signal of a closed pipe ended.
const CLOSED_PIPE: u8 = 141;

// Why a batch is not answered to its end.
#[derive(Clone, Copy)]
enum Trouble {
    Fault,
    Failed,
    Closed,
}

// The letter of the next case and its payload's length; none where the batch ends.
fn read_head(rt: &impl Input) -> Result<Option<(u8, usize)>, Trouble> {
    let mut head = [0; 5];
    match read_all(rt, &mut head) {
        Ok(0) => Ok(None),
        Ok(5) => Ok(Some((head[0], four_at(&head, 1) as usize))),
        Ok(_) => Err(Trouble::Fault),
        Err(_) => Err(Trouble::Failed),
    }
}

// Reads a case's payload, which fills the slice.
fn read_payload(rt: &impl Input, payload: &mut [u8]) -> Result<(), Trouble> {
    match read_all(rt, payload) {
        Ok(n) if n == payload.len() => Ok(()),
        Ok(_) => Err(Trouble::Fault),
        Err(_) => Err(Trouble::Failed),
    }
}

// Prints the answer to case k. What cannot be written is left, unless nobody listens any more.
fn print_answer(
    rt: &impl Print,
    k: u64,
    letter: u8,
    payload: &mut [u8],
    text: &mut [u8],
) -> Result<(), Trouble> {
    let n = put_answer(text, k, letter, payload).ok_or(Trouble::Fault)?;
    match rt.write_all(&text[..n]) {
        Err(error) if error.kind() == ErrorKind::BrokenPipe => Err(Trouble::Closed),
        _ => Ok(()),
    }
}

// Answers case after case until the batch ends. There is room for the longest payload, and for the longest answer: two lines of at most 100 bytes, and a
// slice of 64,774 bytes in hex.
fn answer_cases(rt: &(impl Input + Print), room: &mut [u8], text: &mut [u8]) -> Result<(), Trouble>
    requires payload_room { length room.old ≡ 65536 }
    requires answer_room { length text.old ≡ 131072 }
{
    for k in 0..u64::MAX {
        let Some((letter, length)) = read_head(rt)? else {
            break;
        };
        let payload = room.get_mut(..length).ok_or(Trouble::Fault)?;
        read_payload(rt, payload)?;
        print_answer(rt, k, letter, payload, text)?;
    }
    Ok(())
}

fn main(rt: HostRuntime) -> ExitCode {
    let mut room = [0; 65536];
    let mut text = [0; 131072];
    match answer_cases(&rt, &mut room, &mut text) {
        Err(Trouble::Fault) => {
            let _ = rt.eprintln("cases: the batch is at fault");
        }
        Err(Trouble::Failed) => {
            let _ = rt.eprintln("cases: cannot read standard input");
        }
        Err(Trouble::Closed) => return ExitCode::from(CLOSED_PIPE),
        Ok(()) => {}
    }
    ExitCode::SUCCESS
}
