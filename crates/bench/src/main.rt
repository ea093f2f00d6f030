// Tests of speed, of what comes from standard input. `P` or `E` and a script: what booth prints for it, its list made pixel by pixel or from edge to
// edge (lists.rt). All others write a checksum. `N`, `L` or `C` and a script: the places or the levels of its last two
// pixels, or its check, asked for again and again (places.rt). `R`, `U`, `S` or `B` and a script: it is read again and again, at once, or in chunks of
// 16,384 bytes, of 64, or byte by byte (uploads.rt). Else numbers: 4095 lines of 4095 words, through `fill`, of the line that they tell.
// The numbers are decimal, with one byte between two of them: the half registers of patterns 0 and 1, as a profile holds them, then
// length, mode, start, repetitions, mask bits, whether the second pattern acts; acts, level and two toggles of VSG1 to VSG5 and of SUBCK;
// level, from and to of MSHUT and of STROBE. bench/levels.c does the same by the same rules in C.
#![tactic(auto)]

mod lists;
mod places;
mod uploads;

ghost use Rattle.std.specs.Prelude.{◌+◌, ◌≤◌, ◌<◌, length};

use holdlist::{compile, compile_edges};
use level::{Line, Mask, Pulse, Run, Span};
use profile::pattern_of;
use std::io::Read;

// The place of the number to which a byte belongs: the next one after a byte that is below the digits.
fn place_after(k: usize, c: u8) -> usize
    requires { k < 240 }
    ensures { result < 240 }
{
    if k < 239 && c < b'0' { k + 1 } else { k }
}

// A number with a further digit; any other byte, and a digit too many, leaves it.
fn number_after(x: u16, c: u8) -> u16 {
    if c.is_ascii_digit() && x < 6553 {
        return x * 10 + u16::from(c - b'0');
    }
    x
}

// The numbers of a text.
fn numbers(text: &[u8]) -> [u16; 240] {
    let mut n = [0u16; 240];
    let mut k: usize = 0;
    for c in text {
        k = place_after(k, *c);
        n[k] = number_after(n[k], *c);
    }
    n
}

fn pulse_at(n: &[u16; 240], at: usize) -> Pulse
    requires { at < 200 }
{
    Pulse {
        level: n[at + 1],
        toggles: (n[at] == 1).then_some((n[at + 2], n[at + 3])),
    }
}

fn span_at(n: &[u16; 240], at: usize) -> Span
    requires { at < 200 }
{
    Span {
        level: n[at],
        from: n[at + 1],
        to: n[at + 2],
    }
}

fn mask_of(on: bool, freeze: u16, resume: u16) -> Option<Mask> {
    on.then_some(Mask { freeze, resume })
}

// How V1 to V6 run in a mode, of which the text tells the number, by the newest rules; and below the pixels of the region before a line that count.
fn run_of(mode: u16) -> Run {
    if mode == 2 {
        Run::Multiplied
    } else {
        Run::Carried
    }
}

fn origin_of(mode: u16, before: u32) -> u32 {
    if mode == 0 { 0 } else { before }
}

// Line i: its start levels and its place in the region differ from line to line.
fn line_from(n: &[u16; 240], i: u64) -> Line
    requires { i < 4095 }
{
    let mut pattern = pattern_of(*n, 0);
    pattern.levels = (pattern.levels % 64 + ((i % 64) as u16)) % 64;
    Line {
        length: n[48],
        run: run_of(n[49]),
        pattern,
        start: n[50],
        origin: origin_of(n[49], (i * 4095) as u32),
        repetitions: n[51],
        mask1: mask_of(n[52] % 2 == 1, pattern.freeze1, pattern.resume1),
        mask2: mask_of(n[52] / 2 % 2 == 1, pattern.freeze2, pattern.resume2),
        second: (n[53] == 1).then_some(pattern_of(*n, 1)),
        gates: [
            pulse_at(n, 54),
            pulse_at(n, 58),
            pulse_at(n, 62),
            pulse_at(n, 66),
            pulse_at(n, 70),
        ],
        subck: pulse_at(n, 74),
        mshut: span_at(n, 78),
        strobe: span_at(n, 81),
    }
}

// A word times its place, counted from 1.
fn word_term(word: u16, j: usize) -> u64
    requires { j < 4095 }
    ensures { result ≤ 268365825 }
{
    u64::from(word) * (j as u64 + 1)
}

// The checksum of line i.
fn line_sum(n: &[u16; 240], i: u64) -> u64
    requires { i < 4095 }
    ensures { result ≤ 1098958053375 }
{
    let mut out = [0u16; 4095];
    level::fill(line_from(n, i), &mut out);
    let mut sum: u64 = 0;
    for (j, word) in out.iter().enumerate() {
        sum += word_term(*word, j);
    }
    sum
}

// The checksum of all lines.
fn total(n: &[u16; 240]) -> u64 {
    let mut sum: u64 = 0;
    for i in 0..4095 {
        sum += line_sum(n, i);
    }
    sum
}

fn print_sum(rt: &impl Print, sum: u64) {
    let _ = rt.println(sum);
}

// What the first byte asks for.
fn answer(rt: &impl Print, text: &[u8]) {
    let Some((first, script)) = text.split_first() else {
        return;
    };
    match *first {
        b'P' => lists::print_list(rt, compile, script),
        b'E' => lists::print_list(rt, compile_edges, script),
        b'N' => print_sum(rt, places::places_sum(script)),
        b'L' => print_sum(rt, places::levels_sum(script)),
        b'C' => print_sum(rt, places::checks_sum(script)),
        b'R' => print_sum(rt, uploads::reads_sum(script)),
        b'U' => print_sum(rt, uploads::uploads_sum(script, 16384)),
        b'S' => print_sum(rt, uploads::uploads_sum(script, 64)),
        b'B' => print_sum(rt, uploads::uploads_sum(script, 1)),
        _ => print_sum(rt, total(&numbers(text))),
    }
}

// Reads until the input ends, a read fails or the room is full.
// A while loop: it goes on by as many bytes as came, and what came before a read that fails is kept.
fn read_full(rt: &impl Input, room: &mut [u8]) -> usize
    ensures { result ≤ length room.old }
{
    let mut reader = rt.reader();
    let mut at: usize = 0;
    while at < room.len() {
        let Ok(n) = reader.read(&mut room[at..]) else {
            return at;
        };
        if n == 0 {
            return at;
        }
        at += n;
    }
    at
}

fn main(rt: HostRuntime) {
    let mut text = [0u8; 16385];
    let got = read_full(&rt, &mut text);
    answer(&rt, &text[..got]);
}
