// States not reached before get the next level and a place in the queue.

ghost use Rattle.std.specs.Prelude.{◌≡◌, ℕ, ◌+◌, ◌≤◌, ◌<◌, length, get_or};
ghost use Rattle.limits.specs.Limits.{max_states};
ghost use Rattle.search.specs.Queue.{InList};

use limits::Word;

// The states reached so far: a level for each, and their numbers in the order in which they were found.
#[derive(Drop)]
pub struct Reached<'a> {
    pub level: &'a mut [Word],
    pub queue: &'a mut [Word],
    pub end: usize,
}

impl<'a> Reached<'a> {
    ghost use Rattle.search.specs.Held.{SameQueue, InOrder, TakesIn};

    // If q is not reached, it gets level x + 1 and stands at the queue's end.
    pub fn take(&mut self, x: Word, q: usize)
        requires { (x ≤ max_states) × (q < length self.old.level.now) × InOrder self.old }
        ensures takes { TakesIn x (λ y. y ≡ q) self.old self.new }
        ensures same { SameQueue self.old self.new }
    {
        if self.level[q] == 0 {
            self.level[q] = x + 1;
            self.queue[self.end] = q as Word;
            self.end += 1;
        }
    }

    // The same for `base` plus each number of a row.
    pub fn take_all(&mut self, x: Word, base: usize, row: &[Word])
        requires queue { (x ≤ max_states) × InOrder self.old }
        requires states { (i : ℕ) → i < length row.now → base + get_or row.now i 0 < length self.old.level.now }
        ensures takes { TakesIn x (InList row.now base 0 (length row.now)) self.old self.new }
        ensures same { SameQueue self.old self.new }
    {
        for &t in row {
            self.take(x, base + usize::from(t));
        }
    }
}
