// The least of the shortest closed walks of a node, by its nodes. The search stops at the first level from which a step leads back.
#![tactic(auto)]

ghost use Rattle.std.specs.Prelude.{◌≡◌, Bool, ℕ, ◌≤◌, ◌<◌, length};
ghost use Rattle.limits.specs.Limits.{max_states};
ghost use Rattle.theory.specs.Adjacency.{Holds, Rows};
ghost use Rattle.closed_walk.specs.Closes.{Closes};

use limits::Word;
use search::{Steps, flag_all, trace};

mod returning;
mod rounds;

use returning::Back;
use rounds::levels;

// The fewest steps of a closed walk of q, and into the first places of `path` the nodes that the least of these comes to, the last of them q; 0 if q
// lies on no closed walk. `level`, `queue` and `path` may hold anything, and are left changed.
// 0 and no Option: `Closes` and the laws on it speak of the number of steps.
pub fn closed_walk(
    first: &[u32],
    targets: &[Word],
    q: usize,
    level: &mut [Word],
    queue: &mut [Word],
    path: &mut [Word],
) -> usize
    requires { (q < length level.old) × (length level.old ≤ max_states) × Rows first.now targets.now (length level.old)
        × (length queue.old ≡ length level.old) × (length path.old ≡ length level.old) }
    ensures { (e : ℕ → ℕ → Bool) → Holds first.now targets.now (length level.old) e
        → Closes (length level.old) e q result path.new }
{
    let steps = Steps {
        first,
        targets,
        nodes: level.len(),
    };
    let Some(end) = levels(steps, q, level, queue) else {
        return 0;
    };
    let last = usize::from(queue[end - 1]);
    let count = usize::from(level[last]);
    flag_all(&Back { steps, q }, level, queue, end, count);
    trace(&Back { steps, q }, level, q, &mut path[..count - 1]);
    path[count - 1] = q as Word;
    count
}
