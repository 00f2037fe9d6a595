// The kind of a step of our trail: the least kind, then edge.

ghost use Rattle.std.specs.Prelude.{◌≡◌, true, ◌<◌};
ghost use Rattle.theory.specs.Marked.{step};
ghost use Rattle.theory.specs.Replay.{our_move};
ghost use Rattle.graph.specs.Plan.{system_of_model, labelled_of_model};
ghost use Rattle.graph.specs.States.{states};
ghost use Rattle.trail_writer.specs.Move.{move_by, Sound};

use graph::Space;
use trail_numbers::Label;

// A touch goes around the closed walk of the state that it comes to.
#[derive(Clone, Copy, Debug, PartialEq, Eq)]
pub enum Kind {
    Flow(Label),
    Face,
    Touch,
}

// Of the step from p to q.
pub fn kind_of(space: &Space, p: usize, q: usize) -> Kind
    requires { let m = space.now.plan.now.model in (p < states m) × (q < states m) × (step (system_of_model m) p q ≡ true) }
    ensures value { let m = space.now.plan.now.model in move_by m q result ≡ our_move (labelled_of_model m) p q }
    ensures sound { Sound space.now.plan.now.model q result }
{
    if let Some(x) = step_writer::least_label(space, p, q) {
        return Kind::Flow(x);
    }
    if space.has_face(p, q) {
        return Kind::Face;
    }
    Kind::Touch
}
