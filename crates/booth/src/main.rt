// Reads a script from standard input and prints its hold list, or why it is refused.
#![tactic(auto)]

ghost use Rattle.std.specs.Prelude.{◌≡◌, ◌+◌, ◌≤◌, length, take};
ghost use Rattle.profile.specs.Script.{most_bytes};
ghost use Rattle.profile.specs.Versions.{newest_rules};
ghost use Rattle.holdlist.specs.Prints.{Prints};
ghost use Rattle.holdlist.specs.Text.{printed};

use std::io::{ErrorKind, Input};
use std::process::ExitCode;

// The status, as a shell tells it, of a program that the signal of a closed pipe ended.
const CLOSED_PIPE: u8 = 141;

// Puts what is printed for a script by the newest rules, and gives its length.
fn put_answer(script: &[u8], out: &mut [u8]) -> usize
    requires { length out.old ≡ 65600 }
    ensures upper_bound { result ≤ 65600 }
    ensures out_after { take result out.new ≡ printed newest_rules script.now }
    ensures prints { Prints newest_rules script.now (take result out.new) }
{
    holdlist::put_text_in(out, 0, profile::newest_rules(), script)
}

// Prints the answer to a script. As in `ask`, with other sentences: what both share would be handed them all. A write that fails is said on standard error; where nobody listens any more, nothing is said.
fn print_answer(rt: &(impl Print + Eprint), script: &[u8]) -> ExitCode {
    // Room for 4,096 lines of at most 16 bytes, and a head line of at most 55.
    let mut text = [0; 65600];
    let n = put_answer(script, &mut text);
    match rt.write_all(&text[..n]) {
        Ok(()) => ExitCode::SUCCESS,
        Err(error) if error.kind() == ErrorKind::BrokenPipe => ExitCode::from(CLOSED_PIPE),
        Err(_) => {
            let _ = rt.eprintln("booth: cannot write standard output");
            ExitCode::SUCCESS
        }
    }
}

// Reads a script into a room of one byte more than the longest, so that a longer one is seen to be longer, and prints its answer.
fn answer_input(rt: &(impl Input + Print + Eprint), script: &mut [u8]) -> ExitCode
    requires { length script.old ≡ most_bytes + 1 }
{
    match standard_input::read_all(rt, script) {
        Ok(n) => print_answer(rt, &script[..n]),
        Err(_) => {
            let _ = rt.eprintln("booth: cannot read standard input");
            ExitCode::SUCCESS
        }
    }
}

fn main(rt: HostRuntime) -> ExitCode {
    let mut script = [0; 16385];
    answer_input(&rt, &mut script)
}
