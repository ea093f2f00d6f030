// A line made ready: the word at a pixel, and the next pixel at which some output can change.
ghost use Rattle.std.specs.Prelude.{◌+◌, ◌*◌, ◌<◌, ◌≡◌};
ghost use Rattle.level.specs.Word.{shown_at};
ghost use Rattle.level.specs.Next.{next};
ghost use Rattle.level.specs.Eight.{eight_at};
ghost use Rattle.level.specs.Ready.{unmasked_at, unmasked_edge, ready_word, ready_edge};

use crate::Mask;
use crate::first::First;
use crate::masks::{holds, mask_next, shown};
use crate::others::Others;
use crate::second::{Second, begun, start_after};

#[derive(Clone, Copy)]
pub struct Ready {
    pub first: First,
    pub second: Option<Second>,
    pub mask1: Option<Mask>,
    pub mask2: Option<Mask>,
    pub others: Others,
}

// The word at a pixel, and the next pixel at which it can change.
#[derive(Clone, Copy)]
pub struct Reach {
    pub word: u16,
    pub stop: u16,
}

// The region's pixel.
fn region_pixel(origin: u32, p: u16) -> u64
    ensures { result ≡ origin + p }
{
    u64::from(origin) + u64::from(p)
}

// The word of two halves.
pub(crate) fn join(six: u16, eight: u16) -> u16
    requires { (six < 64) × (eight < 256) }
    ensures { result ≡ six + eight * 64 }
{
    six + eight * 64
}

impl Ready {
    // V1 to V6 at a pixel before masks.
    fn unmasked(self, p: u16) -> u16
        ensures value { result ≡ unmasked_at self p }
        ensures upper_bound { result < 64 }
    {
        match begun(self.second, p) {
            Some(s) => s.at(p),
            None => self.first.at(region_pixel(self.first.origin, p)),
        }
    }

    // A word's two halves at a pixel: V1 to V6 as the masks let them show, and the other eight.
    pub(crate) fn six_at(self, p: u16) -> u16
        ensures value { result ≡ unmasked_at self (shown_at self.mask1 self.mask2 p) }
        ensures upper_bound { result < 64 }
    {
        self.unmasked(shown(self.mask1, self.mask2, p))
    }

    pub(crate) fn eight_at(self, p: u16) -> u16
        ensures value { result ≡ eight_at self.others.edges p }
        ensures upper_bound { result < 256 }
    {
        self.others.at(p)
    }

    // V1 to V6 before masks, and where they can change next.
    fn free(self, p: u16, end: u16) -> Reach
        requires { p < end }
        ensures word_value { result.word ≡ unmasked_at self p }
        ensures word_bound { result.word < 64 }
        ensures stop_value { result.stop ≡ next (λ q. unmasked_edge self q) p end }
    {
        match begun(self.second, p) {
            Some(s) => Reach {
                word: s.at(p),
                stop: s.next_after(p, end),
            },
            None => {
                let e = start_after(self.second, p, end);
                let v = self.first.both(region_pixel(self.first.origin, p), e - p);
                Reach {
                    word: v.levels,
                    stop: p + v.far,
                }
            }
        }
    }

    // The word at a pixel, and the next pixel before the end at which some output can change, else the end.
    pub(crate) fn reach_at(self, p: u16, end: u16) -> Reach
        requires { p < end }
        ensures word_value { result.word ≡ ready_word self p }
        ensures stop_value { result.stop ≡ next (λ q. ready_edge self q) p end }
    {
        let a = self.mask1;
        let b = self.mask2;
        let e = mask_next(b, p, mask_next(a, p, self.others.next_after(p, end)));
        let eight = self.others.at(p);
        if holds(a, p) || holds(b, p) {
            return Reach {
                word: join(self.unmasked(shown(a, b, p)), eight),
                stop: e,
            };
        }
        let v = self.free(p, e);
        Reach {
            word: join(v.word, eight),
            stop: v.stop,
        }
    }
}
