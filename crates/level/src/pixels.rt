// A line pixel by pixel: made ready once, and its word worked out at each pixel by itself.
ghost use Rattle.std.specs.Prelude.{min, ◌≡◌, length};
ghost use Rattle.profile.specs.Lists.{over};
ghost use Rattle.level.specs.Word.{word_of};
ghost use Rattle.level.specs.Fieldwords.{line_words};

use crate::Line;
use crate::made::prepare;
use crate::ready::join;

// The word of a line at a pixel.
pub(crate) fn word_of(line: Line, pixel: u16) -> u16
    ensures { result ≡ word_of line pixel }
{
    let ready = prepare(line);
    join(ready.six_at(pixel), ready.eight_at(pixel))
}

// The words of a line's pixels, as many as the slice has room for.
pub fn fill(line: Line, out: &mut [u16])
    ensures { out.new ≡ over (line_words line (min line.length (length out.old))) out.old }
{
    let ready = prepare(line);
    let n = out.len().min(usize::from(line.length)) as u16;
    for p in 0..n {
        out[p as usize] = join(ready.six_at(p), ready.eight_at(p));
    }
}
