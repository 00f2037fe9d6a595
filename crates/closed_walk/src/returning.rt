// The nodes from which a step leads back, as the goals of a search.

ghost use Rattle.std.specs.Prelude.{◌<◌};

use limits::Word;
use search::{Guide, Steps};

// The steps, and the node that a closed walk comes back to.
#[derive(Clone, Copy)]
pub struct Back<'a> {
    pub steps: Steps<'a>,
    pub q: usize,
}

impl<'a> Guide for Back<'a> {
    ghost use Rattle.std.specs.Prelude.{⊤};
    ghost use Rattle.theory.specs.Adjacency.{Adjacent};

    ghost size = { λ b. b.steps.nodes };

    ghost lawful = { λ b. ⊤ };

    ghost leads = { λ b. Adjacent b.steps.first.now b.steps.targets.now };

    ghost ends = { λ b p. Adjacent b.steps.first.now b.steps.targets.now p b.q };

    fn least(&self, level: &[Word], y: usize, p: usize) -> Option<usize> {
        self.steps.least(level, y, p)
    }

    fn is_goal(&self, p: usize) -> bool {
        self.steps.leads_to(p, self.q)
    }
}
