// The first pattern on a line.
ghost use Rattle.std.specs.Prelude.{min, ◌+◌, ◌-◌, ◌<◌, ◌≡◌};
ghost use Rattle.level.specs.Next.{next};

use crate::keys::{cap, next_key, six};

// `levels` begin the repetitions of even number, `turned` those of odd number, each six bits; `times` says that the toggles
// are multiplied, and a flag does: keys, start and levels serve a run and a multiplier alike.
#[derive(Clone, Copy)]
pub struct First {
    pub times: bool,
    pub levels: u16,
    pub turned: u16,
    pub length: u16,
    pub keys: [u32; 18],
    pub start: u16,
    pub origin: u32,
    pub repetitions: u16,
    ghost six_levels: { levels < 64 },
    ghost six_turned: { turned < 64 },
}

// The levels at a pixel, and how far on the next edge is.
#[derive(Clone, Copy)]
pub struct Ahead {
    pub levels: u16,
    pub far: u16,
}

// A distance, or the room where that is less.
fn within(d: u64, room: u16) -> u16
    ensures { result ≡ min d room }
{
    d.min(u64::from(room)) as u16
}

impl First {
    ghost use Rattle.level.specs.Ready.{begins_with, run_pixels, run_at, times_at, first_at, run_edge, times_edge, first_edge};

    // The levels that repetition i begins with.
    fn begins(self, i: u64) -> u16
        ensures value { result ≡ begins_with self i }
        ensures upper_bound { result < 64 }
    {
        if i % 2 == 0 {
            return self.levels;
        }
        self.turned
    }

    // The pixels of the run. Casts, here and below: a proof reads them as the length itself, and a `from` as a further number.
    fn run_pixels(self) -> u64
        ensures { result ≡ run_pixels self }
    {
        self.repetitions as u64 * self.length as u64
    }

    // V1 to V6, t pixels after the start.
    fn run_at(self, t: u64) -> u16
        ensures value { result ≡ run_at self t }
        ensures upper_bound { result < 64 }
    {
        if t < self.run_pixels() {
            let l = self.length as u64;
            return six(self.begins(t / l), &self.keys, (t % l) as u32 + 1);
        }
        self.begins(self.repetitions as u64)
    }

    fn times_at(self, t: u64) -> u16
        ensures value { result ≡ times_at self t }
        ensures upper_bound { result < 64 }
    {
        let l = self.length as u64;
        if l == 0 {
            return six(self.levels, &self.keys, 65536);
        }
        six(self.levels, &self.keys, cap(t / l) + 1)
    }

    // V1 to V6 at a region's pixel.
    pub(crate) fn at(self, q: u64) -> u16
        ensures value { result ≡ first_at self q }
        ensures upper_bound { result < 64 }
    {
        let s = self.start as u64;
        if q < s {
            return self.levels;
        }
        if self.times {
            return self.times_at(q - s);
        }
        self.run_at(q - s)
    }

    // V1 to V6 and how far on the next edge is, t pixels after the start. The room is at least a pixel in all three, as it is in whoever asks.
    fn run_both(self, t: u64, room: u16) -> Ahead
        requires { 0 < room }
        ensures levels_value { result.levels ≡ run_at self t }
        ensures levels_bound { result.levels < 64 }
        ensures far_value { result.far ≡ next (λ j. run_edge self (t + j)) 0 room }
    {
        if t < self.run_pixels() {
            let l = self.length as u64;
            let u = (t % l) as u32;
            let key = next_key(&self.keys, u, self.length as u32);
            return Ahead {
                levels: six(self.begins(t / l), &self.keys, u + 1),
                far: within((key - u) as u64, room),
            };
        }
        Ahead {
            levels: self.begins(self.repetitions as u64),
            far: room,
        }
    }

    fn times_both(self, t: u64, room: u16) -> Ahead
        requires { 0 < room }
        ensures levels_value { result.levels ≡ times_at self t }
        ensures levels_bound { result.levels < 64 }
        ensures far_value { result.far ≡ next (λ j. times_edge self (t + j)) 0 room }
    {
        let l = self.length as u64;
        if l == 0 {
            return Ahead {
                levels: six(self.levels, &self.keys, 65536),
                far: room,
            };
        }
        let m = t / l;
        let levels = six(self.levels, &self.keys, cap(m) + 1);
        if 65535 <= m {
            return Ahead { levels, far: room };
        }
        let x = next_key(&self.keys, m as u32, 65536) as u64;
        if x < 65536 {
            return Ahead {
                levels,
                far: within(x * l - t, room),
            };
        }
        Ahead { levels, far: room }
    }

    // The same at a region's pixel.
    pub(crate) fn both(self, q: u64, room: u16) -> Ahead
        requires { 0 < room }
        ensures levels_value { result.levels ≡ first_at self q }
        ensures levels_bound { result.levels < 64 }
        ensures far_value { result.far ≡ next (λ j. first_edge self (q + j)) 0 room }
    {
        let s = self.start as u64;
        if q < s {
            return Ahead {
                levels: self.levels,
                far: within(s - q, room),
            };
        }
        if self.times {
            return self.times_both(q - s, room);
        }
        self.run_both(q - s, room)
    }
}
