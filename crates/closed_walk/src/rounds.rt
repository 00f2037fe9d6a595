// Rounds from q by a queue, up to the first level from which a step leads back to q.

ghost use Rattle.std.specs.Prelude.{◌≡◌, true, ◌↔◌, ◌≤◌, ◌<◌, length, unwrap_or, IfSome};
ghost use Rattle.limits.specs.Limits.{max_states};
ghost use Rattle.theory.specs.Adjacency.{Adjacent};
ghost use Rattle.search.specs.Queue.{LeadsFrom};
ghost use Rattle.search.specs.Held.{InOrder};
ghost use Rattle.closed_walk.specs.Rounds.{Outcome};

use limits::Word;
use search::{Reached, Steps, round};

// Whether a node of the queue from place lo on has a step to q.
fn leads_back(steps: Steps, reached: &Reached, lo: usize, q: usize) -> bool
    requires { (length reached.now.level.now ≡ steps.nodes) × InOrder reached.now }
    ensures { (result ≡ true) ↔ LeadsFrom (Adjacent steps.entry.first.now steps.entry.targets.now) reached.now.queue.now lo reached.now.end q }
{
    for i in lo..reached.end {
        if steps.leads_to(usize::from(reached.queue[i]), q) {
            return true;
        }
    }
    false
}

// The queue's end once a node of the last level has a step to q, if a node that is reached has one.
pub fn levels(steps: Steps, q: usize, level: &mut [Word], queue: &mut [Word]) -> Option<usize>
    requires { (q < length level.old) × (length level.old ≤ max_states) × (length level.old ≡ steps.nodes)
        × (length queue.old ≡ length level.old) }
    ensures some { IfSome result (λ n. 0 < n) }
    ensures outcome { Outcome steps.entry.first.now steps.entry.targets.now q level.new queue.new (unwrap_or result 0) }
{
    level.fill(0);
    let mut reached = Reached {
        level,
        queue,
        end: 0,
    };
    reached.take(0, q);
    let mut x: Word = 1;
    let mut lo = 0;
    // A while: a round makes the queue longer.
    while lo < reached.end {
        let hi = reached.end;
        if leads_back(steps, &reached, lo, q) {
            return Some(hi);
        }
        round(&steps, &mut [], &mut reached, x, lo);
        x += 1;
        lo = hi;
    }
    None
}
