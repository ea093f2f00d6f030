// The level asked for at a line and pixel, and the line and pixel of a field pixel. A profile that the check refuses is refused first,
// then a place that the field does not have, 19.
ghost use Rattle.std.specs.Prelude.{◌≡◌, ◌*◌, ◌≤◌, ◌<◌};
ghost use Rattle.profile.specs.Geometry.{Ordered, region_count, first_line, region_size};
ghost use Rattle.profile.specs.Versions.{newest_rules};
ghost use Rattle.level.specs.Place.{level_told, level_answer, place_of, locate_told, place_answer, locate_answer, last_multiple};

use crate::LinePixel;
use crate::lines::line_of;
use crate::pixels::word_of;
use profile::{
    Field, Profile, Refusal, Ruleset, Tables, check_in, has_pixel, newest_rules, region_at,
    region_count, region_size, sequence_of,
};

// The word at a line and pixel.
pub fn level_in(rules: Ruleset, profile: Profile, line: u64, pixel: u64) -> Result<u16, Refusal>
    ensures { level_told result ≡ level_answer rules profile line pixel }
{
    check_in(rules, profile)?;
    if !has_pixel(profile.tables, profile.field, line, pixel) {
        return Err(Refusal::NoPixel);
    }
    let shown = line_of(rules.version, profile.tables, profile.field, line);
    Ok(word_of(shown, pixel as u16))
}

// The same by the newest rules.
pub fn level(profile: Profile, line: u64, pixel: u64) -> Result<u16, Refusal>
    ensures { level_told result ≡ level_answer newest_rules profile line pixel }
{
    level_in(newest_rules(), profile, line, pixel)
}

// The last of some lines of one length that starts at or before pixel n; 0 where there is none.
fn line_by_division(length: u64, lines: u64, n: u64) -> u64
    ensures value { result ≡ last_multiple length lines n }
    ensures upper_bound { (result ≤ lines) × (result * length ≤ n) }
{
    if lines == 0 {
        return 0;
    }
    if length == 0 {
        return lines - 1;
    }
    let line = n / length;
    // two cases and no `min`: each is a law of its own
    if line < lines { line } else { lines - 1 }
}

// The line and pixel of pixel n of region i. Its lines are of one length but for the field's last, which has no line after it.
fn place_in(tables: Tables, field: Field, i: usize, n: u64) -> LinePixel
    requires ordered { Ordered field }
    requires i_bound { i < region_count field }
    requires n_bound { n < region_size tables field i }
    ensures { locate_told (Ok result) ≡ place_answer tables field (place_of tables field (first_line field i) n) }
{
    let region = region_at(field, i);
    let sequence = sequence_of(tables, region.sequence);
    let first = region.first as u64;
    let length = sequence.length as u64;
    let line = line_by_division(length, (field.lines as u64) - first, n);
    LinePixel {
        line: first + line,
        pixel: n - line * length,
    }
}

// The line and pixel of pixel n of a field whose regions are in order: each region takes its size off n.
fn place_of(tables: Tables, field: Field, n: u64) -> Result<LinePixel, Refusal>
    requires { Ordered field }
    ensures { locate_told result ≡ place_answer tables field n }
{
    let count = region_count(field);
    let mut left = n;
    for i in 0..count {
        let size = region_size(tables, field, i);
        if left < size {
            return Ok(place_in(tables, field, i, left));
        }
        left -= size;
    }
    Err(Refusal::NoPixel)
}

// The line and pixel of field pixel n.
pub fn locate_in(rules: Ruleset, profile: Profile, n: u64) -> Result<LinePixel, Refusal>
    ensures { locate_told result ≡ locate_answer rules profile n }
{
    check_in(rules, profile)?;
    place_of(profile.tables, profile.field, n)
}

// The same by the newest rules.
pub fn locate(profile: Profile, n: u64) -> Result<LinePixel, Refusal>
    ensures { locate_told result ≡ locate_answer newest_rules profile n }
{
    locate_in(newest_rules(), profile, n)
}
