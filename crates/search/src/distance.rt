// The least distance of some states.

ghost use Rattle.std.specs.Prelude.{◌≡◌};
ghost use Rattle.search.specs.Lowest.{lower_distance};

use limits::Word;

// The lower of `best` and the distance of a state with this level, if it is reached: a level is one more than a distance.
pub fn lower_distance(best: Option<usize>, level: Word) -> Option<usize>
    ensures { result ≡ lower_distance best level }
{
    if level == 0 {
        return best;
    }
    let d = usize::from(level) - 1;
    Some(best.map_or(d, |b| b.min(d)))
}
