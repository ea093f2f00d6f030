// Playing a hold list.
ghost use Rattle.std.specs.Prelude.{◌≡◌};
ghost use Rattle.holdlist.specs.Play.{play_told, play_answer};

use profile::Refusal;

// The word that the first `used` steps show at a position: 20 where a list has fewer, then 19 where the steps end before the position.
pub fn play(counts: &[u32], words: &[u16], used: usize, position: u64) -> Result<u16, Refusal>
    ensures { play_told result ≡ play_answer counts.now words.now used position }
{
    if counts.len() < used {
        return Err(Refusal::NoStep);
    }
    if words.len() < used {
        return Err(Refusal::NoStep);
    }
    let mut left = position;
    for (&count, &word) in counts[..used].iter().zip(&words[..used]) {
        let count = u64::from(count);
        if left < count {
            return Ok(word);
        }
        left -= count;
    }
    Err(Refusal::NoPixel)
}
