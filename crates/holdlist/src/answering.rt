// From the bytes of a script to the text that the program prints for it: read, compiled and told.
ghost use Rattle.std.specs.Prelude.{◌≡◌, length};
ghost use Rattle.holdlist.specs.Text.{PutsText};

use crate::compiling::compile_edges_in;
use crate::text::{put_printed, put_refused_line};
use profile::{Refusal, Ruleset, read_in};

// Puts what is printed for a script by the rules, from a place on, and gives the place after it. What has no room is left out.
pub fn put_text_in(out: &mut [u8], at: usize, rules: Ruleset, script: &[u8]) -> usize
    ensures { PutsText rules script.now out.old at result out.new }
{
    let profile = match read_in(rules, script) {
        Ok(profile) => profile,
        Err(refusal) => return put_refused_line(out, at, refusal.verdict()),
    };
    // room for 4,096 steps
    let mut counts = [0u32; 4096];
    let mut words = [0u16; 4096];
    let compiled = compile_edges_in(rules, profile, &mut counts, &mut words);
    put_printed(out, at, compiled.map_err(Refusal::verdict), &counts, &words)
}
