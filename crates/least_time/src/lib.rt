#![tactic(auto)]

// The least time from the start to a location with perfect clocks: a search by levels, a level for each time. Jumps take no time, so a level is closed
// under jumps before a unit of waiting, two time steps, leads on. Only states at whole times are met.

ghost use Rattle.std.specs.Prelude.{◌≡◌, ◌+◌, ◌*◌, ◌/◌, ◌≤◌, ◌<◌, eqb, length, get_or, unwrap_or, IfSome};
ghost use Rattle.graph.specs.Plan.{labelled_of_model};
ghost use Rattle.graph.specs.States.{states};
ghost use Rattle.search.specs.Lowest.{LeastDistance};
ghost use Rattle.least_time.specs.Times.{Times};
ghost use Rattle.least_time.specs.LeastTime.{least_time};

use graph::Space;
use limits::{MAX_REGIONS, Word};
use model::Plan;
use search::{Reached, lower_distance, round};

mod levels;
mod steps;

use levels::close;
use steps::Waits;

// Into `level` the least time of every state plus one, or 0 where no run gets there. What the queue holds does not matter; it is left with the states
// that are reached.
fn times(space: &Space, level: &mut [Word], queue: &mut [Word])
    requires { let m = space.now.plan.now.model in (length level.old ≡ states m) × (length queue.old ≡ states m) }
    ensures { Times (labelled_of_model space.now.plan.now.model) level.new }
{
    level.fill(0);
    let start = usize::from(space.plan.model.start) * space.table.len();
    let mut reached = Reached {
        level,
        queue,
        end: 0,
    };
    reached.take(0, start);
    let mut y: Word = 0;
    let mut lo = 0;
    // A while: a level makes the queue longer.
    while lo < reached.end {
        close(space, &mut reached, y, lo);
        let end = reached.end;
        y += 1;
        round(&Waits { space }, &mut [], &mut reached, y, lo);
        lo = end;
    }
}

// The least time of a location's states, if one of them is reached.
fn least(level: &[Word], regions: usize, location: usize) -> Option<usize>
    requires { (0 < regions) × (location * regions + regions ≤ length level.now) }
    ensures { LeastDistance (λ p. eqb (p / regions) location) (λ p. get_or level.now p 0) (length level.now) result }
{
    let from = location * regions;
    let mut best = None;
    for p in from..from + regions {
        best = lower_distance(best, level[p]);
    }
    best
}

// The least time with perfect clocks from the start to a location, if some run gets there. What the two slices held before does not matter; they are
// left with numbers of the search.
pub fn least_time(
    plan: &Plan,
    location: usize,
    level: &mut [Word],
    queue: &mut [Word],
) -> Option<usize>
    requires { let m = plan.now.model in (location < m.locations) × (length level.old ≡ states m) × (length queue.old ≡ states m) }
    ensures value { let m = plan.now.model in unwrap_or result (states m) ≡ least_time m location }
    ensures below { IfSome result (λ t. t < states plan.now.model) }
{
    let mut list = [0u32; MAX_REGIONS];
    let r = region_table::select(plan.model.clocks, plan.model.ceiling, &mut list);
    let table = &list[..r];
    times(&Space { plan, table }, level, queue);
    least(level, r, location)
}
