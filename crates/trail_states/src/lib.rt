// The states of our trail: the fewest steps from the start into a forbidden location, and of those the least in state numbers.
#![tactic(auto)]

ghost use Rattle.std.specs.Prelude.{◌≡◌, ◌*◌, ◌≤◌, ◌<◌, length, take};
ghost use Rattle.theory.specs.System.{System};
ghost use Rattle.theory.specs.Trail.{trail_states};
ghost use Rattle.search.specs.Queue.{reached_count, ByLevel};
ghost use Rattle.marking.specs.Tables.{SearchTables};
ghost use Rattle.trail_states.specs.Told.{Told};

use limits::Word;
use marking::Ways;
use search::{Steps, count_reached, flag_all, trace};

mod next;

use next::Trail;

// Into `path` the states of our trail, which has `steps` steps; without `touch` there are no touch steps. `distance` has the distance of every state
// from the start plus one; flags are put on it and taken off again. `queue` lists the marked states level by level.
pub fn trail_states(
    touch: bool,
    steps: usize,
    start: usize,
    regions: usize,
    first: &[u32],
    targets: &[Word],
    shapes: &[Word],
    heights: &[Word],
    kind: &[u8],
    distance: &mut [Word],
    queue: &[Word],
    path: &mut [Word],
)
    requires { (steps < length distance.old) × (start < length distance.old) × (steps ≤ length path.old)
        × (length distance.old ≤ length kind.now * regions) × ByLevel distance.old queue.now (reached_count distance.old)
        × SearchTables touch (length distance.old) regions first.now targets.now shapes.now heights.now }
    ensures { (distance.new ≡ distance.old)
        × ((Y : System) → Told Y steps start regions first.now targets.now shapes.now
        heights.now kind.now distance.old → take steps path.new ≡ trail_states Y) }
{
    let end = count_reached(distance);
    let trail = Trail {
        ways: Ways {
            touch,
            regions,
            steps: Steps {
                first,
                targets,
                nodes: distance.len(),
            },
            shapes,
            heights,
        },
        kind,
    };
    flag_all(&trail, distance, queue, end, steps + 1);
    trace(&trail, distance, start, &mut path[..steps]);
    search::clear_flags(distance);
}
