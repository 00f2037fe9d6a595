// Search by levels over any relation that lent lists hold: states not reached before are taken into a queue, and the least state at a level is found.
// A level is one more than the distance of a state that is reached, and 0 for the others.
#![tactic(auto)]

ghost use Rattle.std.specs.Prelude.{◌≡◌, List, ℕ, ◌<◌, length, get_or};
ghost use Rattle.limits.specs.Limits.{level_flag};
ghost use Rattle.search.specs.Queue.{reached_count};
ghost use Rattle.search.specs.Flags.{Raised};

use limits::{LEVEL_FLAG, Word};

mod distance;
mod guide;
mod least;
mod reach;
mod row;
mod spread;

pub use distance::lower_distance;
pub use guide::{Guide, flag_all, trace};
pub use least::{least_listed, lower};
pub use reach::Reached;
pub use row::Steps;
pub use spread::{Spread, round};

// How many states are reached.
pub fn count_reached(level: &[Word]) -> usize
    ensures { result ≡ reached_count level.now }
{
    level.iter().filter(|x| 0 < **x).count()
}

// All flags off.
pub fn clear_flags(level: &mut [Word])
    ensures { (old : List ℕ) → ((p : ℕ) → p < length old → get_or old p 0 < level_flag) → Raised old level.old → level.new ≡ old }
{
    for p in 0..level.len() {
        level[p] %= LEVEL_FLAG as Word;
    }
}
