// Steps written into the free rest of two lists, as far as there is room, and counted. An open step of count 0 is none:
// no Option, for a word joins it or begins the next step by the same two tests.
ghost use Rattle.std.specs.Prelude.{◌≡◌, ◌+◌, ◌<◌, ◌^◌, length, min, replicate, slice_set};
ghost use Rattle.holdlist.specs.Runs.{flush};
ghost use Rattle.holdlist.specs.Fills.{Writes, Fills};

use crate::Step;

// How many steps were closed, and the step that is open now.
#[derive(Clone, Copy)]
pub struct Filled {
    pub steps: usize,
    pub held: Step,
}

// Where the rest of both lists begins that is free after the steps already used.
pub(crate) fn free_from(used: usize, counts: &[u32], words: &[u16]) -> (usize, usize)
    ensures in_counts { result.0 ≡ min used (length counts.now) }
    ensures in_words { result.1 ≡ min used (length words.now) }
{
    (used.min(counts.len()), used.min(words.len()))
}

// A number at the front of a list, where the list has a place.
fn put_first<T: Copy>(list: &mut [T], x: T)
    ensures { list.new ≡ slice_set list.old 0 x }
{
    if let Some(first) = list.first_mut() {
        *first = x;
    }
}

// The open step is closed, where there is one.
pub(crate) fn finish(o: Step, counts: &mut [u32], words: &mut [u16]) -> usize
    ensures { Writes (flush o) counts.old words.old result counts.new words.new }
{
    if o.count == 0 {
        return 0;
    }
    put_first(counts, o.count);
    put_first(words, o.word);
    1
}

// A word is pushed onto the open step, `times` times.
pub(crate) fn hold(o: Step, word: u16, times: u32, counts: &mut [u32], words: &mut [u16]) -> Filled
    requires { o.count + times < 2 ^ 32 }
    ensures { Fills o (replicate times word) counts.old words.old result.steps result.held counts.new words.new }
{
    if o.word == word {
        let count = o.count + times;
        return Filled {
            steps: 0,
            held: Step { count, word },
        };
    }
    if times == 0 {
        return Filled { steps: 0, held: o };
    }
    let steps = finish(o, counts, words);
    Filled {
        steps,
        held: Step { count: times, word },
    }
}
