// The least state with a level: scans that keep the best so far.

ghost use Rattle.std.specs.Prelude.{None, ℕ, ◌+◌, ◌<◌, ◌≡◌, length, get_or, unwrap_or, IfSome};
ghost use Rattle.theory.specs.Adjacency.{Adjacent};
ghost use Rattle.search.specs.Queue.{InList};
ghost use Rattle.search.specs.Least.{LeastOf, LeastFound, At};

use super::row::Steps;
use limits::Word;

// The lower of `best` and q, if q has y.
pub fn lower(level: &[Word], y: usize, q: usize, best: Option<usize>) -> Option<usize>
    requires { q < length level.now }
    ensures is { LeastOf (At level.now y (λ z. z ≡ q)) (unwrap_or best (length level.now)) (unwrap_or result (length level.now)) }
    ensures below { IfSome best (λ b. b < length level.now) → IfSome result (λ r. r < length level.now) }
{
    match best {
        Some(b) if b <= q => best,
        _ if usize::from(level[q]) == y => Some(q),
        _ => best,
    }
}

// The same for `base` plus each number of a row.
pub fn least_listed(
    level: &[Word],
    y: usize,
    base: usize,
    row: &[Word],
    best: Option<usize>,
) -> Option<usize>
    requires { (i : ℕ) → i < length row.now → base + get_or row.now i 0 < length level.now }
    ensures is { LeastOf (At level.now y (InList row.now base 0 (length row.now)))
        (unwrap_or best (length level.now)) (unwrap_or result (length level.now)) }
    ensures below { IfSome best (λ b. b < length level.now) → IfSome result (λ r. r < length level.now) }
{
    let mut low = best;
    for &t in row {
        low = lower(level, y, base + usize::from(t), low);
    }
    low
}

impl<'a> Steps<'a> {
    // The least successor of p with y.
    pub fn least(self, level: &[Word], y: usize, p: usize) -> Option<usize>
        requires { (p < self.nodes) × (length level.now ≡ self.nodes) }
        ensures { LeastFound (length level.now) (At level.now y (Adjacent self.entry.first.now self.entry.targets.now p)) None result }
    {
        least_listed(level, y, 0, self.row(p), None)
    }
}
