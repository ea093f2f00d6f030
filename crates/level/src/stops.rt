// A line stretch by stretch: made ready once, and its word worked out at each stop, where alone it can change.
ghost use Rattle.std.specs.Prelude.{min, ◌≡◌, length, take};
ghost use Rattle.profile.specs.Lists.{over};
ghost use Rattle.level.specs.Edges.{stretches_of, stretch_ends, stretch_words};

use crate::Line;
use crate::made::prepare;

// Where a line's stretches end, and their words, side by side as a list's counts and words are, as many as both slices have room for. Gives how
// many.
pub fn stretches(line: Line, ends: &mut [u16], words: &mut [u16]) -> usize
    ensures value { result ≡ min (length (stretches_of line)) (min (length ends.old) (length words.old)) }
    ensures ends_after { ends.new ≡ over (take result (stretch_ends line)) ends.old }
    ensures words_after { words.new ≡ over (take result (stretch_words line)) words.old }
{
    let ready = prepare(line);
    let mut p: u16 = 0;
    let mut n: usize = 0;
    // A while loop: it goes from stop to stop, and ends where either slice does, which is all that `n` is for.
    while p < line.length {
        if ends.len() <= n || words.len() <= n {
            return n;
        }
        let here = ready.reach_at(p, line.length);
        ends[n] = here.stop;
        words[n] = here.word;
        p = here.stop;
        n += 1;
    }
    n
}
