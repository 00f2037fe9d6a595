// Whether lists hold a graph, as the searches require.
ghost use Rattle.std.specs.Prelude.{◌≡◌, true, ℕ, ◌+◌, ◌≤◌, ◌<◌, get_or, length};
ghost use Rattle.component.specs.Marks.{GraphLists};

use limits::{MAX_STATES, MAX_STEPS, Word};

fn ascending(first: &[u32], n: usize) -> bool
    requires { length first.now ≡ n + 1 }
    ensures { result ≡ true → (p : ℕ) → p < n → get_or first.now p 0 ≤ get_or first.now (p + 1) 0 }
{
    first.windows(2).all(|w| w[0] <= w[1])
}

fn all_below(targets: &[Word], end: usize, n: usize) -> bool
    requires { end ≤ length targets.now }
    ensures { result ≡ true → (i : ℕ) → i < end → get_or targets.now i 0 < n }
{
    targets[..end].iter().all(|&t| usize::from(t) < n)
}

pub fn shaped(first: &[u32], targets: &[Word], n: usize) -> bool
    ensures { result ≡ true → GraphLists first.now targets.now n }
{
    if MAX_STATES < n {
        return false;
    }
    if first.len() != n + 1 {
        return false;
    }
    let end = first[n] as usize;
    if MAX_STEPS < end {
        return false;
    }
    if targets.len() < end {
        return false;
    }
    ascending(first, n) && all_below(targets, end, n)
}
