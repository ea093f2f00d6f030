// The text that the program prints, put into a lent slice from a place on. What has no room is left out.
// Each function gives the place after what it put. Slice and place go side by side: a struct that held both would have to say in each function,
// in a clause of its own, that it still holds this slice.
ghost use Rattle.std.specs.Prelude.{◌≡◌, [], ◌∷◌, ◌<◌, length, drop};
ghost use Rattle.holdlist.specs.Text.{digit as digitText, decimal, hex_digit, hex2, hex4, head_line, step_line, toggle_text, refused_line, listing, Puts, PutsPrinted};

use crate::ListSize;
use profile::Verdict;

// One byte.
pub fn put_byte(out: &mut [u8], at: usize, byte: u8) -> usize
    ensures { Puts (byte ∷ []) out.old at result out.new }
{
    if at < out.len() {
        out[at] = byte;
        at + 1
    } else {
        at
    }
}

// Bytes one after another.
pub fn put_bytes(out: &mut [u8], at: usize, bytes: &[u8]) -> usize
    ensures { Puts bytes.now out.old at result out.new }
{
    let mut to = at;
    for &byte in bytes {
        to = put_byte(out, to, byte);
    }
    to
}

fn digit(n: u64) -> u8
    requires { n < 10 }
    ensures { result ≡ digitText n }
{
    48 + n as u8
}

// A number's digits at the end of an array, and where they begin there. By hand: of what `write!` puts it is proved that it can be read back,
// and here each byte is said.
fn spell(n: u64, digits: &mut [u8; 20]) -> usize
    ensures upper_bound { result < 20 }
    ensures digits_after { drop result digits.new ≡ decimal n }
{
    let mut from: usize = 19;
    let mut rest = n / 10;
    digits[19] = digit(n % 10);
    // A while loop: it goes from the last digit to the first, as long as a rest is left, and not over each place.
    while 0 < rest {
        from -= 1;
        digits[from] = digit(rest % 10);
        rest /= 10;
    }
    from
}

pub fn put_decimal(out: &mut [u8], at: usize, n: u64) -> usize
    ensures { Puts (decimal n) out.old at result out.new }
{
    let mut digits = [0u8; 20];
    let from = spell(n, &mut digits);
    put_bytes(out, at, &digits[from..])
}

fn hex_digit(d: u16) -> u8
    requires { d < 16 }
    ensures { result ≡ hex_digit d }
{
    if d < 10 { 48 + d as u8 } else { 55 + d as u8 }
}

pub fn put_hex4(out: &mut [u8], at: usize, word: u16) -> usize
    ensures { Puts (hex4 word) out.old at result out.new }
{
    let digits = [
        hex_digit(word / 4096 % 16),
        hex_digit(word / 256 % 16),
        hex_digit(word / 16 % 16),
        hex_digit(word % 16),
    ];
    put_bytes(out, at, &digits)
}

pub fn put_hex2(out: &mut [u8], at: usize, byte: u8) -> usize
    ensures { Puts (hex2 byte) out.old at result out.new }
{
    let n = u16::from(byte);
    let digits = [hex_digit(n / 16), hex_digit(n % 16)];
    put_bytes(out, at, &digits)
}

// Numbers of a line come one by one: the lists that are told keep counts and words apart.
pub fn put_head_line(out: &mut [u8], at: usize, steps: usize, pixels: u64) -> usize
    ensures { Puts (head_line steps pixels) out.old at result out.new }
{
    let a = put_bytes(out, at, b"steps ");
    let b = put_decimal(out, a, steps as u64);
    let c = put_bytes(out, b, b" pixels ");
    let d = put_decimal(out, c, pixels);
    put_byte(out, d, b'\n')
}

pub fn put_step_line(out: &mut [u8], at: usize, count: u32, word: u16) -> usize
    ensures { Puts (step_line count word) out.old at result out.new }
{
    let a = put_decimal(out, at, u64::from(count));
    let b = put_byte(out, a, b' ');
    let c = put_hex4(out, b, word);
    put_byte(out, c, b'\n')
}

// The output and the toggle that 10 names.
fn put_toggle(out: &mut [u8], at: usize, verdict: Verdict) -> usize
    ensures { Puts (toggle_text verdict) out.old at result out.new }
{
    if verdict.number != 10 {
        return at;
    }
    let a = put_byte(out, at, b' ');
    let b = put_decimal(out, a, u64::from(verdict.output));
    let c = put_byte(out, b, b' ');
    put_decimal(out, c, u64::from(verdict.toggle))
}

pub fn put_refused_line(out: &mut [u8], at: usize, verdict: Verdict) -> usize
    ensures { Puts (refused_line verdict) out.old at result out.new }
{
    let a = put_bytes(out, at, b"refused ");
    let b = put_decimal(out, a, u64::from(verdict.number));
    let c = put_byte(out, b, b' ');
    let d = put_decimal(out, c, verdict.place);
    let e = put_toggle(out, d, verdict);
    put_byte(out, e, b'\n')
}

// The head line, and a line for each of the first steps of two lists, as many as both have.
pub fn put_listing(
    out: &mut [u8],
    at: usize,
    steps: usize,
    pixels: u64,
    counts: &[u32],
    words: &[u16],
) -> usize
    ensures { Puts (listing steps pixels counts.now words.now) out.old at result out.new }
{
    let n = steps.min(counts.len().min(words.len()));
    let mut to = put_head_line(out, at, steps, pixels);
    for (&count, &word) in counts[..n].iter().zip(&words[..n]) {
        to = put_step_line(out, to, count, word);
    }
    to
}

// What is printed of a compile's answer and the lists that it left: at most a head line and 16 bytes a step.
pub fn put_printed(
    out: &mut [u8],
    at: usize,
    answer: Result<ListSize, Verdict>,
    counts: &[u32],
    words: &[u16],
) -> usize
    ensures { PutsPrinted answer counts.now words.now out.old at result out.new }
{
    match answer {
        Ok(size) => put_listing(out, at, size.steps, size.pixels, counts, words),
        Err(verdict) => put_refused_line(out, at, verdict),
    }
}
