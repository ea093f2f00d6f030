// A line made ready: each toggle becomes a key, each gate, SUBCK and shutter two edges.
ghost use Rattle.std.specs.Prelude.{ℕ, ◌<◌, ◌≡◌, get_or};
ghost use Rattle.level.specs.Word.{pulse_level, span_level};
ghost use Rattle.level.specs.Keys.{key_of};
ghost use Rattle.level.specs.Eight.{edges_at, edges_edge, eight_at, eight_edge};
ghost use Rattle.level.specs.declared.Run.TheVariants.{Afresh, Carried, Multiplied};
ghost use Rattle.level.specs.Edges.{first_edge_of, pulse_edge, span_edge, others_edge};
ghost use Rattle.level.specs.Made.{keyed, Makes, Seconds, first_word, others_word, ReadyFor};

use crate::first::First;
use crate::keys::six;
use crate::others::{Edges, Others};
use crate::ready::Ready;
use crate::second::Second;
use crate::{Line, Pulse, Run, Span};
use profile::Pattern;

// Multiplier and second pattern: 4095 is unused.
fn key(x: u16) -> u32
    ensures { result ≡ key_of x }
{
    if x == 4095 { 65536 } else { u32::from(x) }
}

// Eighteen toggles, each as its key. By a loop: by the array's `map` a field of few edges takes a quarter longer.
fn keys_of<F: Fn(u16) -> u32>(t: &[u16; 18], key: F) -> [u32; 18]
    requires { F.IsAlwaysCallable key }
    ensures { (i : ℕ) → i < 18 → F.post key (get_or t.now i 0) (get_or result i 0) }
{
    let mut keys = [0; 18];
    for i in 0..18 {
        keys[i] = key(t[i]);
    }
    keys
}

// Plain and sweep: a toggle is its own key.
fn run_keys(t: &[u16; 18]) -> [u32; 18]
    ensures { result ≡ keyed (λ x. x) t.now }
{
    keys_of(t, u32::from)
}

fn used_keys(t: &[u16; 18]) -> [u32; 18]
    ensures { result ≡ keyed (λ x. key_of x) t.now }
{
    keys_of(t, key)
}

// One function a run, for a law each shows what it makes. Of a line each is handed the four parts that its law speaks of.

// Each repetition begins with the start levels.
fn afresh(a: Pattern, start: u16, origin: u32, r: u16) -> First
    ensures { Makes result origin (λ q. first_word Afresh a start r q) (λ q. first_edge_of Afresh a start r q) }
{
    let keys = run_keys(&a.toggles);
    let levels = six(a.levels, &keys, 0);
    First {
        times: false,
        levels,
        turned: levels,
        length: a.length,
        keys,
        start,
        origin,
        repetitions: r,
    }
}

// Each repetition begins with the levels that the last one ended with: every second one with the start levels.
fn carried(a: Pattern, start: u16, origin: u32, r: u16) -> First
    ensures { Makes result origin (λ q. first_word Carried a start r q) (λ q. first_edge_of Carried a start r q) }
{
    let keys = run_keys(&a.toggles);
    let levels = six(a.levels, &keys, 0);
    let turned = six(a.levels, &keys, u32::from(a.length));
    First {
        times: false,
        levels,
        turned,
        length: a.length,
        keys,
        start,
        origin,
        repetitions: r,
    }
}

fn multiplied(a: Pattern, start: u16, origin: u32, r: u16) -> First
    ensures { Makes result origin (λ q. first_word Multiplied a start r q) (λ q. first_edge_of Multiplied a start r q) }
{
    let keys = used_keys(&a.toggles);
    let levels = six(a.levels, &keys, 0);
    First {
        times: true,
        levels,
        turned: levels,
        length: a.length,
        keys,
        start,
        origin,
        repetitions: r,
    }
}

// The first pattern made ready.
fn first_of(run: Run, a: Pattern, start: u16, origin: u32, r: u16) -> First
    ensures { Makes result origin (λ q. first_word run a start r q) (λ q. first_edge_of run a start r q) }
{
    match run {
        Run::Afresh => afresh(a, start, origin, r),
        Run::Carried => carried(a, start, origin, r),
        Run::Multiplied => multiplied(a, start, origin, r),
    }
}

// The second pattern made ready.
fn second_of(second: Option<Pattern>) -> Option<Second>
    ensures { Seconds result second }
{
    let a = second?;
    let keys = used_keys(&a.toggles);
    Some(Second {
        levels: a.levels,
        length: a.length,
        keys,
    })
}

// A gate or SUBCK: where it does not act, two edges at one place leave its level.
fn pulse_edges(g: Pulse) -> Edges
    ensures by_index { (p : ℕ) → edges_at result p ≡ pulse_level g p }
    ensures by_index_2 { (p : ℕ) → 0 < p → edges_edge result p ≡ pulse_edge g p }
{
    let (on, off) = g.toggles.unwrap_or((0, 0));
    Edges {
        level: g.level,
        on,
        off,
    }
}

// A shutter: outside its span it has the opposite level.
fn span_edges(s: Span) -> Edges
    ensures by_index { (p : ℕ) → edges_at result p ≡ span_level s p }
    ensures by_index_2 { (p : ℕ) → 0 < p → edges_edge result p ≡ span_edge s p }
{
    let level = s.level % 2 + 1;
    if s.from <= s.to {
        return Edges {
            level,
            on: s.from,
            off: s.to,
        };
    }
    Edges {
        level,
        on: 0,
        off: 0,
    }
}

// VSG1 to VSG5, SUBCK, MSHUT and STROBE.
fn edges_of(gates: [Pulse; 5], subck: Pulse, mshut: Span, strobe: Span) -> [Edges; 8]
    ensures by_index { (p : ℕ) → eight_at result p ≡ others_word gates subck mshut strobe p }
    ensures by_index_2 { (p : ℕ) → 0 < p → eight_edge result p ≡ others_edge gates subck mshut strobe p }
{
    [
        pulse_edges(gates[0]),
        pulse_edges(gates[1]),
        pulse_edges(gates[2]),
        pulse_edges(gates[3]),
        pulse_edges(gates[4]),
        pulse_edges(subck),
        span_edges(mshut),
        span_edges(strobe),
    ]
}

// A line made ready.
pub(crate) fn prepare(line: Line) -> Ready
    ensures { ReadyFor result line }
{
    let first = first_of(
        line.run,
        line.pattern,
        line.start,
        line.origin,
        line.repetitions,
    );
    Ready {
        first,
        second: second_of(line.second),
        mask1: line.mask1,
        mask2: line.mask2,
        others: Others::new(edges_of(line.gates, line.subck, line.mshut, line.strobe)),
    }
}
