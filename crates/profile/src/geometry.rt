// Regions, lines and their lengths: the product forms of the sums that the definitions are. Tables and a field are two arguments, as in the
// definitions, for a frame of several fields can stand over one set of tables.
ghost use Rattle.std.specs.Prelude.{◌≡◌, ◌<◌, ◌≤◌, ◌+◌, ◌*◌, eqb};
ghost use Rattle.profile.specs.Geometry.{
  region_count,
  region_at,
  region_of,
  end_line,
  sequence_of,
  gate_of,
  shutter_of,
  sequence_at,
  length_in,
  line_length,
  region_pixels,
  product_pixels,
  region_size,
  regions_pixels,
  has_pixel,
  repetitions,
  has_second_line,
  gate_length,
};

use crate::values::NONE;
use crate::{Field, Gate, Region, Sequence, Shutter, Tables};

// How many regions there are, at most seven.
pub fn region_count(field: Field) -> usize
    ensures value { result ≡ region_count field }
    ensures upper_bound { result ≤ 7 }
{
    usize::from(field.count).min(7)
}

// Region i; all zeros where there is none.
pub fn region_at(field: Field, i: usize) -> Region
    ensures { result ≡ region_at field i }
{
    field.regions.get(i).copied().unwrap_or_default()
}

// The region of a line: the last that starts at or before it, of at most seven.
#[tactic(auto, using(crate::proofs::Laws::starting), unfolding(crate::specs::Geometry::region_of))]
pub fn region_of(field: Field, line: u64) -> usize
    ensures value { result ≡ region_of field line }
    ensures upper_bound { result < 7 }
{
    for i in (0..region_count(field)).rev() {
        if u64::from(field.regions[i].first) <= line {
            return i;
        }
    }
    0
}

// The line after region i's last.
#[tactic(auto, unfolding(crate::specs::Geometry::end_line))]
pub fn end_line(field: Field, i: usize) -> u16
    ensures { result ≡ end_line field i }
{
    if i < 6 && i + 1 < region_count(field) {
        region_at(field, i + 1).first
    } else {
        field.lines
    }
}

// Sequence k; all zeros where there is none.
pub fn sequence_of(tables: Tables, k: u16) -> Sequence
    ensures { result ≡ sequence_of tables k }
{
    tables
        .sequences
        .get(usize::from(k))
        .copied()
        .unwrap_or_default()
}

// Gate k, VSG1 being gate 0; all zeros where there is none.
pub fn gate_of(tables: Tables, k: usize) -> Gate
    ensures { result ≡ gate_of tables k }
{
    tables.gates.get(k).copied().unwrap_or_default()
}

// Shutter k, MSHUT being shutter 0; all zeros where there is none.
pub fn shutter_of(tables: Tables, k: usize) -> Shutter
    ensures { result ≡ shutter_of tables k }
{
    tables.shutters.get(k).copied().unwrap_or_default()
}

// The sequence of region i.
pub fn sequence_at(tables: Tables, field: Field, i: usize) -> Sequence
    ensures { result ≡ sequence_at tables field i }
{
    sequence_of(tables, region_at(field, i).sequence)
}

// Whether a line is the field's last.
fn is_last(lines: u16, line: u64) -> bool
    ensures { result ≡ eqb (line + 1) lines }
{
    line < u64::from(lines) && line + 1 == u64::from(lines)
}

// The length of a line of region i.
#[tactic(auto, unfolding(crate::specs::Geometry::length_in))]
pub fn length_in(tables: Tables, field: Field, i: usize, line: u64) -> u16
    ensures { result ≡ length_in tables field i line }
{
    if is_last(field.lines, line) {
        return field.last;
    }
    sequence_at(tables, field, i).length
}

// Whether the field has a second gate line.
pub fn has_second_line(field: Field) -> bool
    ensures { result ≡ has_second_line field }
{
    field.gate2 != NONE
}

// The length of a line.
#[tactic(auto, unfolding(crate::specs::Geometry::line_length))]
pub fn line_length(tables: Tables, field: Field, line: u64) -> u16
    ensures { result ≡ line_length tables field line }
{
    length_in(tables, field, region_of(field, line), line)
}

// The length of the shortest gate line.
#[tactic(auto, unfolding(crate::specs::Geometry::gate_length, crate::specs::Lists::least))]
pub fn gate_length(tables: Tables, field: Field) -> u16
    ensures { result ≡ gate_length tables field }
{
    let first = line_length(tables, field, u64::from(field.gate));
    if !has_second_line(field) {
        return first;
    }
    first.min(line_length(tables, field, u64::from(field.gate2)))
}

// n lines of one length, as far as they can be counted.
pub(crate) fn product(n: u16, length: u16) -> u64
    ensures value { result ≡ n * length }
    ensures upper_bound { result ≤ 4294836225 }
{
    u64::from(n) * u64::from(length)
}

// The pixels of the lines from a region's first on before a line: lines of one length, the field's last line having its own.
#[tactic(auto, unfolding(crate::specs::Geometry::product_pixels))]
pub fn lines_pixels(first: u16, lines: u16, last: u16, length: u16, line: u16) -> u64
    ensures value { result ≡ product_pixels first lines last length line }
    ensures upper_bound { result ≤ 4294901760 }
{
    if line <= first {
        return 0;
    }
    let n = line - first;
    if (first < lines) & (lines <= line) {
        return product(n - 1, length) + u64::from(last);
    }
    product(n, length)
}

// The pixels of region i's lines before a line.
#[tactic(auto, using(crate::proofs::Lines::size_product))]
pub fn region_pixels(tables: Tables, field: Field, i: usize, line: u16) -> u64
    ensures value { result ≡ region_pixels tables field i line }
    ensures upper_bound { result ≤ 4294901760 }
{
    let region = region_at(field, i);
    let sequence = sequence_at(tables, field, i);
    lines_pixels(region.first, field.lines, field.last, sequence.length, line)
}

// The size of region i.
pub fn region_size(tables: Tables, field: Field, i: usize) -> u64
    ensures value { result ≡ region_size tables field i }
    ensures upper_bound { result ≤ 4294901760 }
{
    region_pixels(tables, field, i, end_line(field, i))
}

// The pixels of all regions: the field's, where its regions are in order.
#[tactic(auto, using(crate::proofs::Laws::summing), unfolding(crate::specs::Geometry::regions_pixels))]
pub fn pixel_count(tables: Tables, field: Field) -> u64
    ensures { result ≡ regions_pixels tables field }
{
    let mut pixels = 0;
    for i in 0..region_count(field) {
        pixels += region_size(tables, field, i);
    }
    pixels
}

// Whether there is such a line and pixel.
#[tactic(auto, unfolding(crate::specs::Geometry::has_pixel))]
pub fn has_pixel(tables: Tables, field: Field, line: u64, pixel: u64) -> bool
    ensures { result ≡ has_pixel tables field line pixel }
{
    (line < u64::from(field.lines)) & (pixel < u64::from(line_length(tables, field, line)))
}

// The repetitions on a line: lines 0, 2, 4 .. take the odd count.
pub fn repetitions(sequence: Sequence, line: u64) -> u16
    ensures { result ≡ repetitions sequence line }
{
    if line % 2 == 0 {
        sequence.odd
    } else {
        sequence.even
    }
}
