// The pass over the levels, the last one first, and the walk along its flags: over any relation, to any goals.

ghost use Rattle.std.specs.Prelude.{◌≡◌, true, None, Bool, ◌↔◌, ℕ, ◌≤◌, ◌<◌, length, get_or};
ghost use Rattle.limits.specs.Limits.{max_states};
ghost use Rattle.theory.specs.Walk.{greedy};
ghost use Rattle.search.specs.Queue.{ByLevel};
ghost use Rattle.search.specs.Flags.{Ahead, Tried, FlagsOf, Steered};

use limits::{LEVEL_FLAG, Word};

// Where each of so many states leads, and which are goals.
pub trait Guide {
    ghost use Rattle.search.specs.Least.{LeastFound, At};

    ghost size: { Self → ℕ };

    ghost lawful: { Self → Type 0 };

    ghost leads: { Self → ℕ → ℕ → Type 0 };

    ghost ends: { Self → ℕ → Type 0 };

    // The least state with y that p leads to.
    fn least(&self, level: &[Word], y: usize, p: usize) -> Option<usize>
        requires { (p < size self.now) × (length level.now ≡ size self.now) × lawful self.now }
        ensures { LeastFound (length level.now) (At level.now y (leads self.now p)) None result };

    // Whether p is a goal.
    fn is_goal(&self, p: usize) -> bool
        requires { (p < size self.now) × lawful self.now }
        ensures { (result ≡ true) ↔ ends self.now p };
}

// The flag for state p, if at the last level x it is a goal, or at a level before it leads to a state of the next level that has the flag.
fn flag_state<G: Guide>(guide: &G, level: &mut [Word], x: usize, p: usize)
    requires { (p < length level.old) × (length level.old ≡ G.size guide.now) × (get_or level.old p 0 ≤ max_states) × G.lawful guide.now }
    ensures { Tried (Ahead (G.leads guide.now) (G.ends guide.now) x level.old) p level.old level.new }
{
    let y = usize::from(level[p]);
    if x < y {
        return;
    }
    if y < x {
        if guide.least(level, y + 1 + LEVEL_FLAG, p).is_some() {
            level[p] = (y + LEVEL_FLAG) as Word;
        }
        return;
    }
    if guide.is_goal(p) {
        level[p] = (y + LEVEL_FLAG) as Word;
    }
}

// The same for all states that are reached, from the queue's last place down: those of the next level have their flags.
pub fn flag_all<G: Guide>(guide: &G, level: &mut [Word], queue: &[Word], end: usize, x: usize)
    requires { (length level.old ≡ G.size guide.now) × ByLevel level.old queue.now end × G.lawful guide.now }
    ensures { (start : ℕ) → FlagsOf (G.leads guide.now) (G.ends guide.now) start x level.old level.new }
{
    for i in (0..end).rev() {
        flag_state(guide, level, x, usize::from(queue[i]));
    }
}

// From the start, step after step, the least state of the next level that has the flag: as many as the path has places.
pub fn trace<G: Guide>(guide: &G, level: &[Word], start: usize, path: &mut [Word])
    requires { (start < length level.now) × (length level.now ≡ G.size guide.now) × (length path.old < length level.now) × (length level.now ≤ max_states)
        × G.lawful guide.now }
    ensures { (r : ℕ → ℕ → Bool) (goal : ℕ → Bool) → Steered (G.leads guide.now) start (length path.old) level.now r goal
        → path.new ≡ greedy (length level.now) r goal (length path.old) start }
{
    let mut p = start;
    for i in 0..path.len() {
        // none where so many steps lead to no goal
        let Some(q) = guide.least(level, i + 2 + LEVEL_FLAG, p) else {
            return;
        };
        path[i] = q as Word;
        p = q;
    }
}
