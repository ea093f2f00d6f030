// Standard input, read into a lent slice.
#![tactic(auto)]

ghost use Rattle.std.specs.Prelude.{◌≤◌, length, IfOk};

use std::io::{ErrorKind, Input, Read};

// Reads until the input ends or the room is full, and gives how many bytes came. A read that fails is not an end: its kind is given, and
// `map_err(io::Error::from)` makes an error of it.
pub fn read_all(rt: &impl Input, room: &mut [u8]) -> Result<usize, ErrorKind>
    ensures { IfOk result (λ n. n ≤ length room.old) }
{
    let mut reader = rt.reader();
    let mut at: usize = 0;
    // A while loop: each read brings as many bytes as it brings. `read_exact` would be an error at an input that ends before the room is full.
    while at < room.len() {
        let n = reader.read(&mut room[at..]).map_err(|e| e.kind())?;
        if n == 0 {
            return Ok(at);
        }
        at += n;
    }
    Ok(at)
}
