// Plans with a joint reset: whether each closed walk that counts has an edge that resets every clock.
ghost use Rattle.std.specs.Prelude.{◌≡◌, ◌-◌, ◌^◌, ◌≤◌, eqb};
ghost use Rattle.limits.specs.Limits.{max_clocks};
ghost use Rattle.model.specs.Model.{Lawful};
ghost use Rattle.edge_walks.specs.Opening.{opens_alone, Flagged};
ghost use Rattle.edge_walks.specs.Joint.{partial_reset, lacks_joint_reset};

use super::cycle::has_cycle;
use super::opening::{flag_edges, open_edges};
use limits::MAX_EDGES;
use model::Model;

// An edge with this reset mask resets each of n clocks.
fn resets_every(mask: u8, n: u8) -> bool
    requires { n ≤ max_clocks }
    ensures { result ≡ eqb mask (2 ^ n - 1) }
{
    let all = (1 << n) - 1;
    mask == all
}

// Of the edges that can open alone, those that keep some clock.
fn partial_resets(m: &Model, opens: &[bool; MAX_EDGES]) -> [bool; MAX_EDGES]
    requires lawful { Lawful m.now }
    requires flagged { Flagged m.now opens.now (opens_alone m.now) }
    ensures { Flagged m.now result (partial_reset m.now) }
{
    flag_edges(m, |e| !resets_every(m.reset[e], m.clocks) && opens[e])
}

// A closed walk that counts has no edge that resets every clock. It is asked at every quicker call, so the smallest plans, which have no edge, are
// answered at once.
pub fn lacks_joint_reset(m: &Model) -> bool
    requires { Lawful m.now }
    ensures { result ≡ lacks_joint_reset m.now }
{
    if m.edges == 0 {
        return false;
    }
    has_cycle(m, &partial_resets(m, &open_edges(m)))
}
