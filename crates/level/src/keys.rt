// The toggles of a pattern as keys: a toggle is passed where its key is below a count of pixels.
ghost use Rattle.std.specs.Prelude.{min, ◌+◌, ◌*◌, ◌/◌, ◌<◌, ◌≡◌, cond, ltb};
ghost use Rattle.profile.specs.Patterns.{row_of, rows_of};
ghost use Rattle.level.specs.Word.{bit, flipped};
ghost use Rattle.level.specs.Keys.{among, passed, six_at};
ghost use Rattle.level.specs.Next.{next};

// 1 where a key is below the count.
fn hit(key: u32, n: u32) -> u16
    ensures value { result ≡ bit (ltb key n) }
    ensures upper_bound { result < 2 }
{
    u16::from(key < n)
}

// How many of an output's three toggles are passed.
fn flips(keys: [u32; 3], n: u32) -> u16
    ensures value { result ≡ passed n keys }
    ensures upper_bound { result < 4 }
{
    hit(keys[0], n) + hit(keys[1], n) + hit(keys[2], n)
}

// The level of one output: bit 0 of `level`, flipped once for each toggle passed.
fn output(level: u16, keys: [u32; 3], n: u32) -> u16
    ensures value { result ≡ flipped level (passed n keys) }
    ensures upper_bound { result < 2 }
{
    (level % 2 + flips(keys, n)) % 2
}

// The three keys of output k.
fn row(keys: &[u32; 18], k: usize) -> [u32; 3]
    requires { k < 6 }
    ensures { result ≡ row_of keys.now k }
{
    [keys[3 * k], keys[3 * k + 1], keys[3 * k + 2]]
}

// The levels of V1 to V6, written out as `six_at` is.
pub(crate) fn six(levels: u16, keys: &[u32; 18], n: u32) -> u16
    ensures value { result ≡ six_at levels (rows_of keys.now) n }
    ensures upper_bound { result < 64 }
{
    output(levels, row(keys, 0), n)
        + output(levels / 2, row(keys, 1), n) * 2
        + output(levels / 4, row(keys, 2), n) * 4
        + output(levels / 8, row(keys, 3), n) * 8
        + output(levels / 16, row(keys, 4), n) * 16
        + output(levels / 32, row(keys, 5), n) * 32
}

// The key where it is above n, else the end.
fn above(key: u32, n: u32, end: u32) -> u32
    ensures { result ≡ cond (ltb n key) key end }
{
    if n < key { key } else { end }
}

// The lowest key above n, or the end where it is lower.
pub(crate) fn next_key(keys: &[u32; 18], n: u32, end: u32) -> u32
    requires { n < end }
    ensures { result ≡ next (λ q. among keys.now q) n end }
{
    let mut best = end;
    for key in keys {
        best = best.min(above(*key, n, end));
    }
    best
}

// A count held to 16 bits: every used toggle is at or below that.
pub(crate) fn cap(m: u64) -> u32
    ensures { result ≡ min m 65535 }
{
    m.min(65535) as u32
}
