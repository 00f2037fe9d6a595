// The distance of every state from the start under the four steps, by a queue: each state, edge, face and corner slot is looked at once.
#![tactic(auto)]

ghost use Rattle.std.specs.Prelude.{◌≡◌, ◌<◌, length};
ghost use Rattle.marking.specs.Tables.{SearchTables, Spots, Found};

use limits::Word;
use search::{Reached, Steps, round};

mod reach;
mod tally;

pub use reach::Ways;
pub use tally::{count_marked, fewest};

// Into `distance` the distance of every state from the start plus one, or 0 where no steps lead to it; the number of rounds. Without `touch` there
// are no touch steps, and the tables of corners are not read. `queue` and `visited` may hold anything; `queue` is left with the marked states, level
// by level. `visited` has a flag for each location and point: set once the states there are taken in.
pub fn distances(
    touch: bool,
    start: usize,
    regions: usize,
    first: &[u32],
    targets: &[Word],
    shapes: &[Word],
    heights: &[Word],
    distance: &mut [Word],
    queue: &mut [Word],
    visited: &mut [u8],
) -> Word
    requires { (start < length distance.old) × (length queue.old ≡ length distance.old)
        × SearchTables touch (length distance.old) regions first.now targets.now shapes.now heights.now
        × Spots (length distance.old) regions (length visited.old) }
    ensures { Found start regions first.now targets.now shapes.now heights.now
        distance.new queue.new result }
{
    let ways = Ways {
        touch,
        regions,
        steps: Steps {
            first,
            targets,
            nodes: distance.len(),
        },
        shapes,
        heights,
    };
    distance.fill(0);
    visited.fill(0);
    let mut reached = Reached {
        level: distance,
        queue,
        end: 0,
    };
    reached.take(0, start);
    let mut x: Word = 1;
    let mut lo = 0;
    // A while: a round makes the queue longer.
    while lo < reached.end {
        let hi = reached.end;
        round(&ways, visited, &mut reached, x, lo);
        x += 1;
        lo = hi;
    }
    x - 1
}
