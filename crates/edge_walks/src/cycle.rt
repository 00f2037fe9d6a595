// Whether there is a closed walk of flagged edges, by rounds over the locations.
ghost use Rattle.std.specs.Prelude.{◌≡◌, map};
ghost use Rattle.std.specs.List.{list_any};
ghost use Rattle.model.specs.Model.{Lawful};
ghost use Rattle.edge_walks.specs.Opening.{flag_of, flag_at};
ghost use Rattle.edge_walks.specs.Cycle.{round_of, survivors, has_cycle};

use limits::{MAX_EDGES, MAX_LOCATIONS};
use model::Model;

// The sources of the flagged edges that lead to a mark.
#[tactic(auto, using(crate::proofs::Opens::marks), unfolding(model::specs::Each::each, crate::specs::Cycle::mark_edge, crate::specs::Cycle::round_of))]
fn round(m: &Model, flags: &[bool; MAX_EDGES], a: &[bool; MAX_LOCATIONS]) -> [bool; MAX_LOCATIONS]
    requires { Lawful m.now }
    ensures { map flag_of result ≡ round_of m.now (flag_at flags.now) (map flag_of a.now) }
{
    let mut b = [false; MAX_LOCATIONS];
    for e in 0..usize::from(m.edges) {
        if flags[e] && a[usize::from(m.target[e])] {
            b[usize::from(m.source[e])] = true;
        }
    }
    b
}

// The locations at which a walk of as many flagged edges as there are locations starts.
#[tactic(auto, unfolding(model::specs::Each::each, crate::specs::Cycle::survivors))]
fn survivors(m: &Model, flags: &[bool; MAX_EDGES]) -> [bool; MAX_LOCATIONS]
    requires { Lawful m.now }
    ensures { map flag_of result ≡ survivors m.now (flag_at flags.now) }
{
    let mut a = [true; MAX_LOCATIONS];
    for _ in 0..m.locations {
        a = round(m, flags, &a);
    }
    a
}

fn any_marked(a: &[bool; MAX_LOCATIONS]) -> bool
    ensures { result ≡ list_any (λ b. b) a.now }
{
    a.iter().any(|&marked| marked)
}

// A closed walk of flagged edges.
pub fn has_cycle(m: &Model, flags: &[bool; MAX_EDGES]) -> bool
    requires { Lawful m.now }
    ensures { result ≡ has_cycle m.now (flag_at flags.now) }
{
    any_marked(&survivors(m, flags))
}
