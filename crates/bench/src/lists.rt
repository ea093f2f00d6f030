// What the program booth prints for a script, its list made by one of the two engines.
ghost use Rattle.std.specs.Prelude.{◌≤◌, length};

use holdlist::ListSize;
use profile::{Profile, Refusal};

// One of the two engines. By a pointer, and not by a type parameter: printing a list stands once in the program, and its rooms not in `main`.
type Compile = fn(Profile, &mut [u32], &mut [u16]) -> Result<ListSize, Refusal>;

// A profile's list by an engine, as text; room for 4,096 steps. An engine is handed on through three functions, and each asks that it can be called.
fn put_list(compile: Compile, profile: Profile, out: &mut [u8]) -> usize
    requires { IsAlwaysCallable compile }
    ensures { result ≤ length out.new }
{
    let mut counts = [0; 4096];
    let mut words = [0; 4096];
    let compiled = compile(profile, &mut counts, &mut words);
    holdlist::put_printed(out, 0, compiled.map_err(Refusal::verdict), &counts, &words)
}

// The list of a script, or its refusal.
fn put_answer(compile: Compile, script: &[u8], out: &mut [u8]) -> usize
    requires { IsAlwaysCallable compile }
    ensures { result ≤ length out.new }
{
    match profile::read(script) {
        Ok(profile) => put_list(compile, profile, out),
        Err(refusal) => holdlist::put_refused_line(out, 0, refusal.verdict()),
    }
}

pub(crate) fn print_list(rt: &impl Print, compile: Compile, script: &[u8])
    requires { IsAlwaysCallable compile }
{
    let mut text = [0; 65600];
    let n = put_answer(compile, script, &mut text);
    let _ = rt.write_all(&text[..n]);
}
