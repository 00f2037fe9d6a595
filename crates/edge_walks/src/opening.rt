// Which edges can open alone, as flags.
ghost use Rattle.std.specs.Prelude.{◌≡◌, ℕ, ◌≤◌, ◌<◌, ◌^◌, ◌/◌, ◌%◌, eqb};
ghost use Rattle.limits.specs.Limits.{max_clocks, max_edges};
ghost use Rattle.model.specs.Model.{Lawful};
ghost use Rattle.edge_walks.specs.Opening.{lets_open, opens_for, opens_alone, flag_at, Flagged};

use limits::MAX_EDGES;
use model::{Model, STRIDE};

// An edge with this reset mask keeps the clock.
pub fn keeps_clock(mask: u8, x: u8) -> bool
    requires { x < max_clocks }
    ensures { result ≡ eqb (mask / 2 ^ x % 2) 0 }
{
    (mask >> x) % 2 == 0
}

// A clock lets an edge open: its low is within the limit where the edge leaves and, if the edge keeps it, where it enters.
fn lets_open(low: u8, from: u8, to: u8, kept: bool) -> bool
    ensures { result ≡ lets_open low from to kept }
{
    low <= from && (!kept || low <= to)
}

#[tactic(auto, using(crate::proofs::Opens::ends_below))]
fn clock_opens(m: &Model, e: usize, x: u8) -> bool
    requires { Lawful m.now × (e < m.now.edges) × (x < m.now.clocks) }
    ensures { result ≡ opens_for m.now e x }
{
    let clock = usize::from(x);
    let from = STRIDE * usize::from(m.source[e]) + clock;
    let to = STRIDE * usize::from(m.target[e]) + clock;
    let low = m.lower[STRIDE * e + clock];
    let kept = keeps_clock(m.reset[e], x);
    lets_open(low, m.invariant[from], m.invariant[to], kept)
}

// Each clock lets the edge open.
#[tactic(auto, using(crate::proofs::Opens::all_not), unfolding(crate::specs::Opening::opens_alone, model::specs::Each::each))]
fn opens_alone(m: &Model, e: usize) -> bool
    requires { Lawful m.now × (e < m.now.edges) }
    ensures { result ≡ opens_alone m.now e }
{
    for x in 0..m.clocks {
        if !clock_opens(m, e, x) {
            return false;
        }
    }
    true
}

// A flag for each edge that passes.
pub fn flag_edges<F: Fn(usize) -> bool>(m: &Model, pass: F) -> [bool; MAX_EDGES]
    requires edges { m.now.edges ≤ max_edges }
    requires callable { (e : ℕ) → e < m.now.edges → F.pre pass e }
    ensures { (e : ℕ) → e < m.now.edges → F.post pass e (flag_at result e) }
{
    let mut flags = [false; MAX_EDGES];
    for e in 0..usize::from(m.edges) {
        flags[e] = pass(e);
    }
    flags
}

// A flag for each edge that can open alone.
pub fn open_edges(m: &Model) -> [bool; MAX_EDGES]
    requires { Lawful m.now }
    ensures { Flagged m.now result (opens_alone m.now) }
{
    flag_edges(m, |e| opens_alone(m, e))
}
