// Words pushed onto the open step: a line's, a region's, a field's. A line's are made by one of two engines, and what both promise is the same.
// What a field has to have, and that an open step can take its words, is asked from the field down to the line, each time of less.
// Each of the four loops goes over something else, and what is left of the two lists is lent anew in each round.
ghost use Rattle.std.specs.Prelude.{◌≡◌, ◌+◌, ◌<◌, ◌≤◌, ◌^◌, length};
ghost use Rattle.profile.specs.Geometry.{region_count};
ghost use Rattle.level.specs.Fieldwords.{line_words, field_words};
ghost use Rattle.holdlist.specs.Runs.{runs};
ghost use Rattle.holdlist.specs.Fills.{Fillable, region_words, Writes, Fills};

use crate::Step;
use crate::steps::{Filled, finish, free_from, hold};
use level::{Line, fill, line_on, stretches, strip_of};
use profile::{Field, Tables, end_line, region_at, region_count};

// How the words of a line are made: at each pixel, or from edge to edge. The buffers lent, made once a region, are for where
// stretches end and for the words; an engine leaves what it has no use for.
pub(crate) trait Engine {
    // A line is pushed onto the open step.
    fn fill_line(
        line: Line,
        o: Step,
        ends: &mut [u16; 4095],
        shown: &mut [u16; 4095],
        counts: &mut [u32],
        words: &mut [u16],
    ) -> Filled
        requires length_bound { line.length ≤ 4095 }
        requires length_bound_2 { o.count + line.length < 2 ^ 32 }
        ensures { Fills o (line_words line line.length) counts.old words.old result.steps result.held counts.new words.new };
}

pub(crate) struct Pixels;

pub(crate) struct Edges;

// A word is held for each pixel.
impl Engine for Pixels {
    fn fill_line(
        line: Line,
        o: Step,
        _ends: &mut [u16; 4095],
        shown: &mut [u16; 4095],
        counts: &mut [u32],
        words: &mut [u16],
    ) -> Filled {
        fill(line, shown);
        let mut filled = Filled { steps: 0, held: o };
        for &word in &shown[..usize::from(line.length)] {
            let (c, d) = free_from(filled.steps, counts, words);
            let next = hold(filled.held, word, 1, &mut counts[c..], &mut words[d..]);
            filled.steps += next.steps;
            filled.held = next.held;
        }
        filled
    }
}

// Each stretch is held as one.
impl Engine for Edges {
    fn fill_line(
        line: Line,
        o: Step,
        ends: &mut [u16; 4095],
        shown: &mut [u16; 4095],
        counts: &mut [u32],
        words: &mut [u16],
    ) -> Filled {
        let n = stretches(line, ends, shown);
        let mut filled = Filled { steps: 0, held: o };
        let mut start: u16 = 0;
        for (&end, &word) in ends[..n].iter().zip(&shown[..n]) {
            let (c, d) = free_from(filled.steps, counts, words);
            let next = hold(
                filled.held,
                word,
                u32::from(end - start),
                &mut counts[c..],
                &mut words[d..],
            );
            filled.steps += next.steps;
            filled.held = next.held;
            start = end;
        }
        filled
    }
}

// Region i is pushed line by line: its writer gets the open step, and what is free of both lists after the steps already used.
fn fill_region<E: Engine>(
    version: u16,
    tables: Tables,
    field: Field,
    i: usize,
    o: Step,
    counts: &mut [u32],
    words: &mut [u16],
) -> Filled
    requires fillable { Fillable tables field }
    requires i_bound { i < region_count field }
    requires i_bound_2 { o.count + length (region_words version tables field i) < 2 ^ 32 }
    ensures { Fills o (region_words version tables field i) counts.old words.old result.steps result.held counts.new words.new }
{
    let strip = strip_of(version, tables, field, i);
    let mut ends = [0; 4095];
    let mut shown = [0; 4095];
    let mut filled = Filled { steps: 0, held: o };
    for number in region_at(field, i).first..end_line(field, i) {
        let line = line_on(strip, number);
        let (c, d) = free_from(filled.steps, counts, words);
        let next = E::fill_line(
            line,
            filled.held,
            &mut ends,
            &mut shown,
            &mut counts[c..],
            &mut words[d..],
        );
        filled.steps += next.steps;
        filled.held = next.held;
    }
    filled
}

// All regions in order, pushed onto the open step.
fn fill_regions<E: Engine>(
    version: u16,
    tables: Tables,
    field: Field,
    o: Step,
    counts: &mut [u32],
    words: &mut [u16],
) -> Filled
    requires fillable { Fillable tables field }
    requires field_bound { o.count + length (field_words version tables field) < 2 ^ 32 }
    ensures { Fills o (field_words version tables field) counts.old words.old result.steps result.held counts.new words.new }
{
    let mut filled = Filled { steps: 0, held: o };
    for i in 0..region_count(field) {
        let (c, d) = free_from(filled.steps, counts, words);
        let next = fill_region::<E>(
            version,
            tables,
            field,
            i,
            filled.held,
            &mut counts[c..],
            &mut words[d..],
        );
        filled.steps += next.steps;
        filled.held = next.held;
    }
    filled
}

// The whole field, its last step closed: written as far as there is room, and always counted.
pub(crate) fn fill_field<E: Engine>(
    version: u16,
    tables: Tables,
    field: Field,
    counts: &mut [u32],
    words: &mut [u16],
) -> usize
    requires { Fillable tables field }
    ensures { Writes (runs (field_words version tables field)) counts.old words.old result counts.new words.new }
{
    let empty = Step { count: 0, word: 0 };
    let filled = fill_regions::<E>(version, tables, field, empty, counts, words);
    let (c, d) = free_from(filled.steps, counts, words);
    filled.steps + finish(filled.held, &mut counts[c..], &mut words[d..])
}
