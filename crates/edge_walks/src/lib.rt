// Walks of edges on the drawing alone: whether a closed walk that counts leaves some clock unreset, or has no edge that resets every clock.
#![tactic(auto)]

mod cycle;
mod joint;
mod opening;

ghost use Rattle.std.specs.Prelude.{◌≡◌, ◌<◌};
ghost use Rattle.limits.specs.Limits.{max_clocks};
ghost use Rattle.model.specs.Model.{Lawful};
ghost use Rattle.edge_walks.specs.Opening.{opens_alone, Flagged};
ghost use Rattle.edge_walks.specs.Cycle.{counts, unreset};

use cycle::has_cycle;
pub use joint::lacks_joint_reset;
use limits::MAX_EDGES;
use model::Model;
use opening::{flag_edges, keeps_clock, open_edges};

// Of the edges that can open alone, those that keep the clock.
fn counted_edges(m: &Model, opens: &[bool; MAX_EDGES], x: u8) -> [bool; MAX_EDGES]
    requires lawful { Lawful m.now }
    requires x_lt_max_clocks { x < max_clocks }
    requires flagged { Flagged m.now opens.now (opens_alone m.now) }
    ensures { Flagged m.now result (counts m.now x) }
{
    flag_edges(m, |e| keeps_clock(m.reset[e], x) && opens[e])
}

// A closed walk that counts leaves some clock unreset. Which edges can open alone is the same for every clock, so it is looked up once.
pub fn leaves_unreset(m: &Model) -> bool
    requires { Lawful m.now }
    ensures { result ≡ unreset m.now }
{
    let opens = open_edges(m);
    for x in 0..m.clocks {
        if has_cycle(m, &counted_edges(m, &opens, x)) {
            return true;
        }
    }
    false
}
