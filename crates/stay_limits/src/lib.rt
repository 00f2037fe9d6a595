// What a blank stay field stands for, by the mark of its plan.
#![tactic(auto)]

ghost use Rattle.std.specs.Prelude.{◌≡◌, ◌<◌, ◌≤◌};
ghost use Rattle.limits.specs.Limits.{max_clocks, max_edges};
ghost use Rattle.stay_limits.specs.Stay.{source_in, high_in, one_more, last_exit, blank_limit};

use limits::{MAX_CLOCKS, MAX_EDGES};

// The high ends of each edge, one for each clock, stand side by side.
const HIGHS: usize = MAX_CLOCKS * MAX_EDGES;

// In plans of the first mark a blank means the ceiling.
const FIRST_MARK: u8 = 1;

// The greatest high end for a clock among the edges that leave a location.
#[tactic(auto, unfolding(crate::specs::Stay::last_exit))]
fn last_exit(
    edges: u8,
    source: &[u8; MAX_EDGES],
    upper: &[u8; HIGHS],
    l: usize,
    x: usize,
) -> Option<u8>
    requires { (edges ≤ max_edges) × (x < max_clocks) }
    ensures { one_more result ≡ last_exit (source_in source.now) (high_in upper.now x) l edges }
{
    let mut last = None;
    for e in 0..usize::from(edges) {
        if usize::from(source[e]) == l {
            let high = upper[MAX_CLOCKS * e + x];
            last = Some(last.map_or(high, |greatest| high.max(greatest)));
        }
    }
    last
}

// The limit of a location for a clock where its stay field is blank: in plans of mark 2 that of the last exit, if there is one.
pub fn blank_limit(
    mark: u8,
    ceiling: u8,
    edges: u8,
    source: &[u8; MAX_EDGES],
    upper: &[u8; HIGHS],
    l: usize,
    x: usize,
) -> u8
    requires { (edges ≤ max_edges) × (x < max_clocks) }
    ensures { result ≡ blank_limit mark ceiling (source_in source.now) (high_in upper.now x) l edges }
{
    if mark == FIRST_MARK {
        return ceiling;
    }
    last_exit(edges, source, upper, l, x).unwrap_or(ceiling)
}
