// Masks: the pixel whose levels show.
ghost use Rattle.std.specs.Prelude.{◌<◌, ◌≡◌, eqb};
ghost use Rattle.level.specs.Word.{frozen, held_at, shown_at};
ghost use Rattle.level.specs.Next.{next};
ghost use Rattle.level.specs.Edges.{mask_edge};

use crate::Mask;

// Whether a mask holds its outputs at a pixel.
pub(crate) fn holds(mask: Option<Mask>, p: u16) -> bool
    ensures { result ≡ frozen mask p }
{
    mask.is_some_and(|m| m.freeze <= p && p < m.resume)
}

// Its freeze where a mask holds at p, else q.
fn held(mask: Option<Mask>, p: u16, q: u16) -> u16
    ensures { result ≡ held_at mask p q }
{
    match mask {
        Some(m) if m.freeze <= p && p < m.resume => m.freeze,
        _ => q,
    }
}

// The pixel whose unmasked levels show.
pub(crate) fn shown(a: Option<Mask>, b: Option<Mask>, p: u16) -> u16
    ensures { result ≡ shown_at a b p }
{
    held(a, p, held(b, p, p))
}

// x where it is after p and before the end, else the end. Whatever seeks a next edge asks that p is before the end, and no type of ours has both.
pub(crate) fn until(x: u16, p: u16, end: u16) -> u16
    requires { p < end }
    ensures { result ≡ next (λ q. eqb q x) p end }
{
    if p < x && x < end {
        return x;
    }
    end
}

// Freeze and resume.
pub(crate) fn mask_next(mask: Option<Mask>, p: u16, end: u16) -> u16
    requires { p < end }
    ensures { result ≡ next (λ q. mask_edge mask q) p end }
{
    match mask {
        Some(m) => until(m.resume, p, until(m.freeze, p, end)),
        None => end,
    }
}
