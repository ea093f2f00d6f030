// The second pattern on a line.
ghost use Rattle.std.specs.Prelude.{◌≤◌, ◌<◌, ◌≡◌};
ghost use Rattle.level.specs.Next.{next};
ghost use Rattle.level.specs.Ready.{begun_at, starts_at, second_at, second_edge};

use crate::keys::{next_key, six};
use crate::masks::until;

#[derive(Clone, Copy)]
pub struct Second {
    pub levels: u16,
    pub length: u16,
    pub keys: [u32; 18],
}

// Casts in place of `from`, as in `first`.
impl Second {
    // V1 to V6 from its start on.
    pub(crate) fn at(self, p: u16) -> u16
        requires { self.length ≤ p }
        ensures value { result ≡ second_at self p }
        ensures upper_bound { result < 64 }
    {
        six(self.levels, &self.keys, (p - self.length) as u32 + 1)
    }

    // Its next edge.
    pub(crate) fn next_after(self, p: u16, end: u16) -> u16
        requires { (self.length ≤ p) × (p < end) }
        ensures { result ≡ next (λ q. second_edge self q) p end }
    {
        let x = next_key(
            &self.keys,
            (p - self.length) as u32,
            (end - self.length) as u32,
        );
        self.length + x as u16
    }
}

// The second pattern where it has taken over.
pub(crate) fn begun(second: Option<Second>, p: u16) -> Option<Second>
    ensures { result ≡ begun_at second p }
{
    second.filter(|s| s.length <= p)
}

// Where it starts.
pub(crate) fn start_after(second: Option<Second>, p: u16, end: u16) -> u16
    requires { p < end }
    ensures { result ≡ next (λ q. starts_at second q) p end }
{
    match second {
        Some(s) => until(s.length, p, end),
        None => end,
    }
}
