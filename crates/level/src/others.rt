// Gates, SUBCK and shutters: each flips at two pixels.
ghost use Rattle.std.specs.Prelude.{ℕ, ◌+◌, ◌*◌, ◌<◌, ◌≡◌, leb};
ghost use Rattle.level.specs.Word.{bit};
ghost use Rattle.level.specs.Next.{next};
ghost use Rattle.level.specs.Eight.{edges_at, edges_edge, eight_at, eight_edge};

use crate::masks::until;

// Its level before both edges, and the pixels where it flips.
#[derive(Clone, Copy)]
pub struct Edges {
    pub level: u16,
    pub on: u16,
    pub off: u16,
}

// The eight, and their levels up to the first edge after pixel 0.
#[derive(Clone, Copy)]
pub struct Others {
    pub first: u16,
    pub steady: u16,
    pub edges: [Edges; 8],
    ghost held: { first ≡ eight_at edges 0 },
    ghost until: { steady ≡ next (λ q. eight_edge edges q) 0 65535 },
}

fn reached(x: u16, p: u16) -> u16
    ensures value { result ≡ bit (leb x p) }
    ensures upper_bound { result < 2 }
{
    u16::from(x <= p)
}

fn edges_at(e: Edges, p: u16) -> u16
    ensures value { result ≡ edges_at e p }
    ensures upper_bound { result < 2 }
{
    (e.level % 2 + (reached(e.on, p) + reached(e.off, p))) % 2
}

// The eight levels at a pixel, written out as `eight_at` is.
fn eight(t: &[Edges; 8], p: u16) -> u16
    ensures value { result ≡ eight_at t.now p }
    ensures upper_bound { result < 256 }
{
    edges_at(t[0], p)
        + edges_at(t[1], p) * 2
        + edges_at(t[2], p) * 4
        + edges_at(t[3], p) * 8
        + edges_at(t[4], p) * 16
        + edges_at(t[5], p) * 32
        + edges_at(t[6], p) * 64
        + edges_at(t[7], p) * 128
}

fn edges_next(e: Edges, p: u16, end: u16) -> u16
    requires { p < end }
    ensures { result ≡ next (λ q. edges_edge e q) p end }
{
    until(e.off, p, until(e.on, p, end))
}

// Their next edge.
fn eight_next(t: &[Edges; 8], p: u16, end: u16) -> u16
    requires { p < end }
    ensures { result ≡ next (λ q. eight_edge t.now q) p end }
{
    let mut best = end;
    for edges in t {
        best = edges_next(*edges, p, best);
    }
    best
}

impl Others {
    // The eight made ready.
    pub(crate) fn new(edges: [Edges; 8]) -> Self
        ensures { result.edges ≡ edges }
    {
        Others {
            first: eight(&edges, 0),
            steady: eight_next(&edges, 0, 65535),
            edges,
        }
    }

    // The eight levels at a pixel.
    pub(crate) fn at(self, p: u16) -> u16
        ensures value { result ≡ eight_at self.edges p }
        ensures upper_bound { result < 256 }
    {
        if p < self.steady {
            return self.first;
        }
        eight(&self.edges, p)
    }

    // Their next edge.
    pub(crate) fn next_after(self, p: u16, end: u16) -> u16
        requires { p < end }
        ensures { result ≡ next (λ q. eight_edge self.edges q) p end }
    {
        if p < self.steady {
            return until(self.steady, p, end);
        }
        eight_next(&self.edges, p, end)
    }
}
