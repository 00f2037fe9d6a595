// What the distances tell: how many states are marked, and the fewest steps that lead into a forbidden location.

ghost use Rattle.std.specs.Prelude.{◌≡◌, ◌*◌, ◌≤◌, ◌<◌, length, unwrap_or, IfSome};
ghost use Rattle.theory.specs.Below.{count};
ghost use Rattle.theory.specs.System.{System, Laws};
ghost use Rattle.theory.specs.Marked.{marks};
ghost use Rattle.theory.specs.Trail.{trail_steps};
ghost use Rattle.marking.specs.Tables.{Distances, Forbids};

use limits::Word;
use search::lower_distance;

// How many states are marked.
pub fn count_marked(distance: &[Word]) -> usize
    ensures { (Y : System) → Laws Y → Distances Y distance.now → result ≡ count Y.size (marks Y) }
{
    search::count_reached(distance)
}

// The least distance of a marked state that is forbidden, if there is one.
pub fn fewest(distance: &[Word], kind: &[u8], regions: usize) -> Option<usize>
    requires { (0 < regions) × (length distance.now ≤ length kind.now * regions) }
    ensures value { (Y : System) → Laws Y → Distances Y distance.now → Forbids Y regions kind.now
        → unwrap_or result (length distance.now) ≡ trail_steps Y }
    ensures below { (Y : System) → Laws Y → Distances Y distance.now → Forbids Y regions kind.now
        → IfSome result (λ d. d < length distance.now) }
{
    let mut best = None;
    for p in 0..distance.len() {
        // The distance first: it spares a division for each state that would not be the nearest.
        let next = lower_distance(best, distance[p]);
        if next != best && kind[p / regions] == 1 {
            best = next;
        }
    }
    best
}
