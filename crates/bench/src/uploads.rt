// A script read 1,000 times: at once, and in chunks of one length. What is answered is summed. bench/uploads.c does the same by the same rules in C.
ghost use Rattle.std.specs.Prelude.{◌≤◌, ◌<◌};

use profile::upload::{Upload, answer, start, take};
use profile::{Profile, Refusal};

const ROUNDS: u64 = 1000;

// The first pattern's length, which every profile has, or the number of the refusal.
fn term_of(answer: Result<Profile, Refusal>) -> u64
    ensures { result ≤ 65535 }
{
    match answer {
        Ok(profile) => u64::from(profile.tables.registers[1]),
        Err(refusal) => u64::from(refusal.verdict().number),
    }
}

pub(crate) fn reads_sum(script: &[u8]) -> u64 {
    let mut sum: u64 = 0;
    for _ in 0..ROUNDS {
        sum += term_of(profile::read(script));
    }
    sum
}

// The upload of a script in chunks of a length; the last may be shorter.
fn upload_of(script: &[u8], size: usize) -> Upload
    requires { 0 < size }
{
    let mut upload = start();
    for chunk in script.chunks(size) {
        upload = take(upload, chunk);
    }
    upload
}

pub(crate) fn uploads_sum(script: &[u8], size: usize) -> u64
    requires { 0 < size }
{
    let mut sum: u64 = 0;
    for _ in 0..ROUNDS {
        sum += term_of(answer(upload_of(script, size)));
    }
    sum
}
