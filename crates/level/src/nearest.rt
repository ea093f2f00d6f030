// The next edge: the nearest later pixel of the field whose word is another, found from stop to stop, line after line.
ghost use Rattle.std.specs.Prelude.{◌≡◌, not, ◌-◌, ◌≤◌, ◌<◌, eqb};
ghost use Rattle.profile.specs.Geometry.{line_length};
ghost use Rattle.profile.specs.Versions.{newest_rules};
ghost use Rattle.level.specs.Word.{word_of};
ghost use Rattle.level.specs.Line.{line_of};
ghost use Rattle.level.specs.Next.{first_from};
ghost use Rattle.level.specs.Place.{edge_told, edge_at, place_of, change_after, next_edge_answer};

use crate::lines::line_of;
use crate::made::prepare;
use crate::pixels::word_of;
use crate::{Line, LinePixel};
use profile::{Field, Profile, Refusal, Ruleset, Tables, check_in, has_pixel, newest_rules};

// The first pixel of a line, from p on, whose word is not w; the line's length where there is none.
fn change_from(line: Line, p: u16, w: u16) -> u16
    ensures { result ≡ first_from (λ q. not (eqb (word_of line q) w)) (line.length - p) p }
{
    let ready = prepare(line);
    let mut q = p;
    // A while loop: it goes from stop to stop, and not by an index.
    while q < line.length {
        let here = ready.reach_at(q, line.length);
        if here.word != w {
            return q;
        }
        q = here.stop;
    }
    q
}

// The next edge of the field after a pixel that it has, whose word is w.
fn edge_after(
    version: u16,
    tables: Tables,
    field: Field,
    line: u64,
    pixel: u16,
    w: u16,
) -> Option<LinePixel>
    requires line_lt_lines { line < field.lines }
    requires pixel_bound { pixel < line_length tables field line }
    requires w_value { w ≡ word_of (line_of version tables field line) pixel }
    ensures { edge_told (Ok result) ≡ edge_at tables field (change_after version tables field (place_of tables field line pixel)) }
{
    let mut p = pixel;
    for n in line..field.lines as u64 {
        let l = line_of(version, tables, field, n);
        let q = change_from(l, p, w);
        if q < l.length {
            return Some(LinePixel {
                line: n,
                pixel: q as u64,
            });
        }
        p = 0;
    }
    None
}

// The nearest later pixel in the field whose word differs from the word at a line and pixel, if there is one.
pub fn next_edge_in(
    rules: Ruleset,
    profile: Profile,
    line: u64,
    pixel: u64,
) -> Result<Option<LinePixel>, Refusal>
    ensures { edge_told result ≡ next_edge_answer rules profile line pixel }
{
    check_in(rules, profile)?;
    if !has_pixel(profile.tables, profile.field, line, pixel) {
        return Err(Refusal::NoPixel);
    }
    let shown = line_of(rules.version, profile.tables, profile.field, line);
    let here = pixel as u16;
    let w = word_of(shown, here);
    Ok(edge_after(rules.version, profile.tables, profile.field, line, here, w))
}

// The same by the newest rules.
pub fn next_edge(profile: Profile, line: u64, pixel: u64) -> Result<Option<LinePixel>, Refusal>
    ensures { edge_told result ≡ next_edge_answer newest_rules profile line pixel }
{
    next_edge_in(newest_rules(), profile, line, pixel)
}
