// A field compiled into the shortest hold list, in two passes of one writer: the first is given no room and counts, the second fills.
ghost use Rattle.profile.specs.Versions.{newest_rules};
ghost use Rattle.holdlist.specs.Compile.{compile_told, Compiles};

use crate::ListSize;
use crate::filling::{Edges, Engine, Pixels, fill_field};
use profile::{Profile, Refusal, Ruleset, check_in, newest_rules, pixel_count};

// Compiles a profile's field into two lent lists by one of the engines.
fn compile_by<E: Engine>(
    rules: Ruleset,
    profile: Profile,
    counts: &mut [u32],
    words: &mut [u16],
) -> Result<ListSize, Refusal>
    ensures { Compiles rules profile counts.old words.old (compile_told result) counts.new words.new }
{
    check_in(rules, profile)?;
    let tables = profile.tables;
    let field = profile.field;
    let need = fill_field::<E>(
        rules.version,
        tables,
        field,
        &mut counts[0..0],
        &mut words[0..0],
    );
    if counts.len().min(words.len()) < need {
        return Err(Refusal::NoRoom(need));
    }
    let steps = fill_field::<E>(rules.version, tables, field, counts, words);
    let pixels = pixel_count(tables, field);
    Ok(ListSize { steps, pixels })
}

// Compiles a profile's field pixel by pixel: the check's refusal, 18 with the steps needed, or the steps used and the pixels.
pub fn compile_in(
    rules: Ruleset,
    profile: Profile,
    counts: &mut [u32],
    words: &mut [u16],
) -> Result<ListSize, Refusal>
    ensures { Compiles rules profile counts.old words.old (compile_told result) counts.new words.new }
{
    compile_by::<Pixels>(rules, profile, counts, words)
}

// The same by the newest rules.
pub fn compile(profile: Profile, counts: &mut [u32], words: &mut [u16]) -> Result<ListSize, Refusal>
    ensures { Compiles newest_rules profile counts.old words.old (compile_told result) counts.new words.new }
{
    compile_in(newest_rules(), profile, counts, words)
}

// The same from edge to edge.
pub fn compile_edges_in(
    rules: Ruleset,
    profile: Profile,
    counts: &mut [u32],
    words: &mut [u16],
) -> Result<ListSize, Refusal>
    ensures { Compiles rules profile counts.old words.old (compile_told result) counts.new words.new }
{
    compile_by::<Edges>(rules, profile, counts, words)
}

pub fn compile_edges(
    profile: Profile,
    counts: &mut [u32],
    words: &mut [u16],
) -> Result<ListSize, Refusal>
    ensures { Compiles newest_rules profile counts.old words.old (compile_told result) counts.new words.new }
{
    compile_edges_in(newest_rules(), profile, counts, words)
}
