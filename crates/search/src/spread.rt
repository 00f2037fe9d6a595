// A round of a search, over any relation.

ghost use Rattle.std.specs.Prelude.{◌≡◌, List, ℕ, ◌≤◌, ◌<◌, length};
ghost use Rattle.limits.specs.Limits.{max_states};
ghost use Rattle.search.specs.Queue.{LeadsFrom};
ghost use Rattle.search.specs.Held.{SameQueue, InOrder, TakesIn};

use super::reach::Reached;
use super::row::Steps;
use limits::Word;

// Where each state leads. `marks` holds what is kept from state to state; not all have need of it.
pub trait Spread {
    ghost use Rattle.search.specs.declared.reach.Reached.{Reached};

    ghost leads: { Self → ℕ → ℕ → Type 0 };

    // what the marks say of the levels
    ghost agrees: { Self → List ℕ → List ℕ → Type 0 };

    // All that p leads to.
    fn spread(&self, marks: &mut [u8], reached: &mut Reached, x: Word, p: usize)
        requires states { (x ≤ max_states) × (p < length reached.old.level.now) × InOrder reached.old }
        requires marks { agrees self.now marks.old reached.old.level.now }
        ensures takes { TakesIn x (leads self.now p) reached.old reached.new }
        ensures same { SameQueue reached.old reached.new }
        ensures marks { agrees self.now marks.new reached.new.level.now };
}

// A round: the states of the queue from place lo on are those at level x.
pub fn round<S: Spread>(steps: &S, marks: &mut [u8], reached: &mut Reached, x: Word, lo: usize)
    requires states { (x ≤ max_states) × (lo ≤ reached.old.end) × InOrder reached.old }
    requires marks { S.agrees steps.now marks.old reached.old.level.now }
    ensures takes { TakesIn x (LeadsFrom (S.leads steps.now) reached.old.queue.now lo reached.old.end) reached.old reached.new }
    ensures same { SameQueue reached.old reached.new }
    ensures marks { S.agrees steps.now marks.new reached.new.level.now }
{
    for i in lo..reached.end {
        let p = usize::from(reached.queue[i]);
        steps.spread(marks, reached, x, p);
    }
}

impl<'a> Spread for Steps<'a> {
    ghost use Rattle.theory.specs.Adjacency.{Adjacent};

    ghost leads = { λ s. Adjacent s.first.now s.targets.now };

    ghost agrees = { λ s marks level. length level ≡ s.nodes };

    fn spread(&self, marks: &mut [u8], reached: &mut Reached, x: Word, p: usize) {
        reached.take_all(x, 0, self.row(p));
    }
}
