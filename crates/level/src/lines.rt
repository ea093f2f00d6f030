// The line of a number: where everything acts on it, worked out from the rule version, the tables and the field. What the lines of a region share is
// taken once a region.
ghost use Rattle.std.specs.Prelude.{◌<◌, ◌+◌, ◌/◌, ◌%◌, ◌≡◌, cond, ◌&&◌, eqb};
ghost use Rattle.std.specs.Bool.{then_some};
ghost use Rattle.profile.specs.Geometry.{product_pixels};
ghost use Rattle.profile.specs.Rules.{has_second};
ghost use Rattle.level.specs.Line.{on_gate_line, absent_pulse, absent_span, gate_here, gates_here, subck_here, opens_at, closes_at, shutter_here, repeated as repeatedRun, run_of, origin_of, line_in, no_line, line_of};
ghost use Rattle.level.specs.Strips.{strip_of, line_on};

use crate::{Line, Mask, Pulse, Run, Span, Strip};
use profile::{
    Field, Gate, Mode, Pattern, Shutter, Subck, Tables, empty_pattern, has_second_line,
    lines_pixels, pattern_of, region_at, region_of, repetitions, sequence_of,
};

// How a repetition begins, by the rule version.
fn repeated(version: u16) -> Run
    ensures { result ≡ repeatedRun version }
{
    if version < 2 {
        Run::Afresh
    } else {
        Run::Carried
    }
}

// How V1 to V6 run in a region.
fn run_of(version: u16, mode: Mode) -> Run
    ensures { result ≡ run_of version mode }
{
    match mode {
        Mode::Plain | Mode::Sweep => repeated(version),
        Mode::Multiplier => Run::Multiplied,
    }
}

// The pixels of the lines from a region's first on before a line.
fn pixels_before(first: u16, lines: u16, last: u16, length: u16, line: u16) -> u32
    ensures { result ≡ product_pixels first lines last length line }
{
    lines_pixels(first, lines, last, length, line) as u32
}

// Those of them since the start level was set: in plain none, for each line sets it.
fn origin_of(mode: Mode, before: u32) -> u32
    ensures { result ≡ origin_of mode before }
{
    match mode {
        Mode::Plain => 0,
        Mode::Sweep | Mode::Multiplier => before,
    }
}

// A freeze and resume pair, where its bit of the mask turns it on.
fn mask_of(mask: u16, bit: u16, freeze: u16, resume: u16) -> Option<Mask>
    requires { 0 < bit }
    ensures { result ≡ then_some (eqb (mask / bit % 2) 1) (record { freeze = freeze; resume = resume }) }
{
    (mask / bit % 2 == 1).then_some(Mask { freeze, resume })
}

// Whether gates and the second pattern act on a line.
fn on_gate_line(field: Field, line: u16) -> bool
    ensures { result ≡ on_gate_line field line }
{
    line == field.gate || has_second_line(field) && line == field.gate2
}

// The second pattern, where there is one and it acts here.
fn second_here(field: Field, second: Pattern, here: bool) -> Option<Pattern>
    ensures { result ≡ then_some (has_second field && here) second }
{
    (field.second != 65535 && here).then_some(second)
}

// What a gate or SUBCK shows that is absent.
fn absent_pulse() -> Pulse
    ensures { result ≡ absent_pulse }
{
    Pulse {
        level: 1,
        toggles: None,
    }
}

// What a shutter shows that is absent.
fn absent_span() -> Span
    ensures { result ≡ absent_span }
{
    Span {
        level: 1,
        from: 0,
        to: 0,
    }
}

// A gate on a line.
fn gate_here(gate: Gate, here: bool) -> Pulse
    ensures { result ≡ gate_here gate here }
{
    if gate.present {
        let acts = gate.on == 1 && here;
        return Pulse {
            level: gate.level,
            toggles: acts.then_some((gate.toggle1, gate.toggle2)),
        };
    }
    absent_pulse()
}

// VSG1 to VSG5 on a line. One by one: of what `map` gives by a closure that captures `here` the proof did not close.
fn gates_here(gates: [Gate; 5], here: bool) -> [Pulse; 5]
    ensures { result ≡ gates_here gates here }
{
    [
        gate_here(gates[0], here),
        gate_here(gates[1], here),
        gate_here(gates[2], here),
        gate_here(gates[3], here),
        gate_here(gates[4], here),
    ]
}

// SUBCK on a line: it acts from the line after the suppressed ones on, as often as its count says.
fn subck_here(subck: Subck, gate: u16, line: u16) -> Pulse
    ensures { result ≡ subck_here subck gate line }
{
    if subck.present {
        let from = u32::from(gate) + u32::from(subck.suppressed);
        let to = from + u32::from(subck.count);
        let here = u32::from(line);
        let acts = from <= here && here < to;
        return Pulse {
            level: subck.level,
            toggles: acts.then_some((subck.toggle1, subck.toggle2)),
        };
    }
    absent_pulse()
}

// The pixel from which a shutter is active, on its lines.
fn opens_at(shutter: Shutter, line: u16) -> u16
    ensures { result ≡ opens_at shutter line }
{
    if line == shutter.on_line {
        return shutter.on_pixel;
    }
    0
}

// The pixel from which it is active no more.
fn closes_at(shutter: Shutter, line: u16, length: u16) -> u16
    ensures { result ≡ closes_at shutter line length }
{
    if line == shutter.off_line {
        return shutter.off_pixel;
    }
    length
}

// A shutter on a line of the given length.
fn shutter_here(shutter: Shutter, line: u16, length: u16) -> Span
    ensures { result ≡ shutter_here shutter line length }
{
    if !shutter.present {
        return absent_span();
    }
    if shutter.on_line <= line && line <= shutter.off_line {
        return Span {
            level: shutter.active,
            from: opens_at(shutter, line),
            to: closes_at(shutter, line, length),
        };
    }
    Span {
        level: shutter.active,
        from: 0,
        to: 0,
    }
}

// The length of a line, by the field's lines, the length of its last and that of the others of its region.
fn length_on(lines: u16, last: u16, length: u16, line: u16) -> u16
    ensures { result ≡ cond (eqb (line + 1) lines) last length }
{
    if u32::from(line) + 1 == u32::from(lines) {
        return last;
    }
    length
}

// What the lines of region i share.
pub fn strip_of(version: u16, tables: Tables, field: Field, i: usize) -> Strip
    ensures { result ≡ strip_of version tables field i }
{
    let region = region_at(field, i);
    let mode = region.mode;
    let sequence = sequence_of(tables, region.sequence);
    // Arrays by variables: no proof is made of a literal that takes an array field straight.
    let gates = tables.gates;
    let shutters = tables.shutters;
    Strip {
        run: run_of(version, mode),
        mode,
        first: region.first,
        sequence,
        pattern: pattern_of(tables.registers, sequence.pattern),
        field,
        second: pattern_of(tables.registers, field.second),
        gates,
        subck: tables.subck,
        shutters,
    }
}

// A line of a region, by what its lines share.
pub fn line_on(strip: Strip, line: u16) -> Line
    ensures { result ≡ line_on strip line }
{
    let sequence = strip.sequence;
    let pattern = strip.pattern;
    let field = strip.field;
    let length = length_on(field.lines, field.last, sequence.length, line);
    let before = pixels_before(strip.first, field.lines, field.last, sequence.length, line);
    let here = on_gate_line(field, line);
    Line {
        length,
        run: strip.run,
        pattern,
        start: sequence.start,
        origin: origin_of(strip.mode, before),
        repetitions: repetitions(sequence, line as u64),
        mask1: mask_of(sequence.mask, 1, pattern.freeze1, pattern.resume1),
        mask2: mask_of(sequence.mask, 2, pattern.freeze2, pattern.resume2),
        second: second_here(field, strip.second, here),
        gates: gates_here(strip.gates, here),
        subck: subck_here(strip.subck, field.gate, line),
        mshut: shutter_here(strip.shutters[0], line, length),
        strobe: shutter_here(strip.shutters[1], line, length),
    }
}

// A line of region i.
fn line_in(version: u16, tables: Tables, field: Field, line: u16, i: usize) -> Line
    ensures { result ≡ line_in version tables field line i }
{
    line_on(strip_of(version, tables, field, i), line)
}

// A line that the field does not have: as if every item were absent.
fn no_line() -> Line
    ensures { result ≡ no_line }
{
    let pulse = absent_pulse();
    let span = absent_span();
    Line {
        length: 0,
        run: Run::Afresh,
        pattern: empty_pattern(),
        start: 0,
        origin: 0,
        repetitions: 0,
        mask1: None,
        mask2: None,
        second: None,
        gates: [pulse; 5],
        subck: pulse,
        mshut: span,
        strobe: span,
    }
}

// The line of a number by a rule version; nothing acts on a line that the field does not have.
pub fn line_of(version: u16, tables: Tables, field: Field, line: u64) -> Line
    ensures { result ≡ line_of version tables field line }
{
    if field.lines as u64 <= line {
        return no_line();
    }
    line_in(version, tables, field, line as u16, region_of(field, line))
}
