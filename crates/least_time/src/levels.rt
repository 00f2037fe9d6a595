// A level: what jumps lead to at the same time.

ghost use Rattle.std.specs.Prelude.{◌≡◌, ◌+◌, ◌≤◌, length};
ghost use Rattle.limits.specs.Limits.{max_states};
ghost use Rattle.graph.specs.Plan.{labelled_of_model};
ghost use Rattle.graph.specs.States.{states};
ghost use Rattle.search.specs.Held.{SameQueue, InOrder};
ghost use Rattle.least_time.specs.Times.{Level, Closes};

use super::steps::take_jumps;
use graph::Space;
use limits::Word;
use search::Reached;

// All that jumps lead to from the states of the queue from place lo on, which are at level y + 1, at the same level.
pub fn close(space: &Space, reached: &mut Reached, y: Word, lo: usize)
    requires { (length reached.old.level.now ≡ states space.now.plan.now.model) × (y ≤ max_states) × (lo ≤ reached.old.end) × InOrder reached.old
        × Level (y + 1) lo reached.old.end reached.old.level.now reached.old.queue.now }
    ensures closes { Closes (labelled_of_model space.now.plan.now.model) y lo reached.old.level.now reached.new.level.now
        reached.old.queue.now reached.new.queue.now reached.old.end reached.new.end }
    ensures same { SameQueue reached.old reached.new }
{
    let mut i = lo;
    // A while: the queue grows as it is gone through.
    while i < reached.end {
        let p = usize::from(reached.queue[i]);
        take_jumps(space, reached, y, p);
        i += 1;
    }
}
