// What a state leads to in no time, and in a unit of it.

ghost use Rattle.std.specs.Prelude.{◌≡◌, true, Some, ℕ, ◌≤◌, ◌<◌, length};
ghost use Rattle.limits.specs.Limits.{max_states};
ghost use Rattle.theory.specs.Soonest.{jump_step};
ghost use Rattle.theory.specs.StateGraph.{time_from};
ghost use Rattle.graph.specs.Plan.{automaton_of, labelled_of_model};
ghost use Rattle.graph.specs.States.{states, next_of};
ghost use Rattle.search.specs.Held.{SameQueue, InOrder, TakesIn};

use graph::Space;
use limits::Word;
use search::{Reached, Spread};

// A unit of waiting: two time steps.
fn unit_step(space: &Space, p: usize) -> Option<usize>
    requires { p < states space.now.plan.now.model }
    ensures { let m = space.now.plan.now.model in result ≡ next_of m (time_from (automaton_of m) m.locations (time_from (automaton_of m) m.locations p)) }
{
    let half = space.time_step(p)?;
    space.time_step(half)
}

// The state that a step leads to is taken in at level y + 1.
fn take_next(reached: &mut Reached, y: Word, next: Option<usize>)
    requires { (y ≤ max_states) × ((q : ℕ) → next ≡ Some q → q < length reached.old.level.now) × InOrder reached.old }
    ensures takes { TakesIn y (λ q. next ≡ Some q) reached.old reached.new }
    ensures same { SameQueue reached.old reached.new }
{
    if let Some(q) = next {
        reached.take(y, q);
    }
}

// The same for the jumps of p.
pub fn take_jumps(space: &Space, reached: &mut Reached, y: Word, p: usize)
    requires state { p < states space.now.plan.now.model }
    requires queue { (length reached.old.level.now ≡ states space.now.plan.now.model) × (y ≤ max_states) × InOrder reached.old }
    ensures takes { TakesIn y (λ q. jump_step (labelled_of_model space.now.plan.now.model) p q ≡ true) reached.old reached.new }
    ensures same { SameQueue reached.old reached.new }
{
    for e in 0..usize::from(space.plan.model.edges) {
        take_next(reached, y, space.jump_step(e, p));
    }
}

// Where a unit of waiting leads from each state.
#[derive(Clone, Copy)]
pub struct Waits<'s, 'a> {
    pub space: &'s Space<'a>,
}

impl<'s, 'a> Spread for Waits<'s, 'a> {
    ghost use Rattle.least_time.specs.Waiting.{waits_to, of_states};

    ghost leads = { waits_to };

    ghost agrees = { of_states };

    fn spread(&self, _marks: &mut [u8], reached: &mut Reached, x: Word, p: usize) {
        take_next(reached, x, unit_step(self.space, p));
    }
}
