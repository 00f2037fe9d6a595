// The least label from a state to another: time, or else the jump along the first edge that leads there.

ghost use Rattle.std.specs.Prelude.{◌≡◌, ◌+◌, ◌<◌, ◌≤◌, IfSome};
ghost use Rattle.theory.specs.Labels.{leads, least_label};
ghost use Rattle.graph.specs.Plan.{labelled_of_model};
ghost use Rattle.graph.specs.States.{states, next_of};
ghost use Rattle.trail_numbers.specs.Numbers.{label_number};
ghost use Rattle.step_writer.specs.Least.{numbered_least};

use graph::Space;
use trail_numbers::Label;

// Where a label leads.
#[tactic(auto, unfolding(theory::specs::StateGraph::labelled_of, theory::specs::StateGraph::step_from))]
fn step_by(space: &Space, x: Label, p: usize) -> Option<usize>
    requires { let m = space.now.plan.now.model in (label_number x ≤ m.edges) × (p < states m) }
    ensures { let m = space.now.plan.now.model in result ≡ next_of m ((labelled_of_model m).next (label_number x) p) }
{
    match x {
        Label::Time => space.time_step(p),
        Label::Jump(e) => space.jump_step(e as usize, p),
    }
}

fn leads_to(space: &Space, x: Label, p: usize, q: usize) -> bool
    requires { let m = space.now.plan.now.model in (label_number x ≤ m.edges) × (p < states m) }
    ensures { result ≡ leads (labelled_of_model space.now.plan.now.model) (label_number x) p q }
{
    step_by(space, x, p) == Some(q)
}

// None where no label leads there.
pub fn least_label(space: &Space, p: usize, q: usize) -> Option<Label>
    requires { let m = space.now.plan.now.model in (p < states m) × (q < states m) }
    ensures value { let m = space.now.plan.now.model in numbered_least (m.edges + 1) result ≡ least_label (labelled_of_model m) p q }
    ensures few { IfSome result (λ x. label_number x ≤ space.now.plan.now.model.edges) }
{
    if leads_to(space, Label::Time, p, q) {
        return Some(Label::Time);
    }
    for e in 0..u32::from(space.plan.model.edges) {
        let jump = Label::Jump(e);
        if leads_to(space, jump, p, q) {
            return Some(jump);
        }
    }
    None
}

// The label of a walk's step: the least that leads there; for states that no step joins, the jump along an edge past the last.
pub fn walk_label(space: &Space, p: usize, q: usize) -> Label
    requires { let m = space.now.plan.now.model in (p < states m) × (q < states m) }
    ensures { label_number result ≡ least_label (labelled_of_model space.now.plan.now.model) p q }
{
    least_label(space, p, q).unwrap_or(Label::Jump(u32::from(space.plan.model.edges)))
}
