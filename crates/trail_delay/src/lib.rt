// How soon drift does harm, by our trail: within base + rate · q jumps, where the drift is a q-th of a unit or more.
#![tactic(auto)]

ghost use Rattle.std.specs.Prelude.{◌≡◌, true, ℕ, ◌*◌, ◌<◌, ◌≤◌, length, get_or};
ghost use Rattle.theory.specs.System.{on_closed_walk};
ghost use Rattle.theory.specs.Marked.{step, unsafe};
ghost use Rattle.theory.specs.Trail.{trail_states};
ghost use Rattle.theory.specs.Labels.{label_kind, labels_along, closed_walk_labels};
ghost use Rattle.theory.specs.Replay.{touch_to, our_move};
ghost use Rattle.limits.specs.Limits.{max_clocks, max_states};
ghost use Rattle.graph.specs.Plan.{system_of_model, labelled_of_model};
ghost use Rattle.graph.specs.States.{states};
ghost use Rattle.trail_numbers.specs.Numbers.{label_number};
ghost use Rattle.trail_writer.specs.Lent.{WalkRoom};
ghost use Rattle.robust.specs.Delay.{jump_count, turns_base, turns_rate};
ghost use Rattle.trail_delay.specs.Ours.{FewJumps, move_delay, our_delay};

use graph::Space;
use limits::Word;
use trail_numbers::Label;
use trail_writer::Kind;

// Jumps that do not depend on the drift, and how often q is added to them.
#[derive(Clone, Copy)]
pub struct Delay {
    pub base: u64,
    pub rate: u64,
}

// A label's jumps: time takes none.
#[tactic(auto, unfolding(theory::specs::Labels::label_kind))]
fn label_jumps(x: Label) -> u64
    ensures value { result ≡ label_kind (label_number x) }
    ensures upper_bound { result ≤ 1 }
{
    match x {
        Label::Time => 0,
        Label::Jump(_) => 1,
    }
}

// The jumps of a walk from a state through given ones, each step by its least label.
fn walk_jumps(space: &Space, start: usize, walk: &[Word]) -> u64
    requires { let m = space.now.plan.now.model in (start < states m) × ((i : ℕ) → i < length walk.now → get_or walk.now i 0 < states m) }
    ensures value { result ≡ jump_count (labels_along (labelled_of_model space.now.plan.now.model) start walk.now) }
    ensures upper_bound { result ≤ length walk.now }
{
    let mut jumps = 0;
    let mut p = start;
    for &q in walk {
        let q = usize::from(q);
        jumps += label_jumps(step_writer::walk_label(space, p, q));
        p = q;
    }
    jumps
}

// Turns around a closed walk of so many jumps, at a region of the given top rank.
fn turns(rank: u64, jumps: u64) -> Delay
    requires { (rank ≤ max_clocks) × (jumps ≤ max_states) }
    ensures base_value { (result.base ≡ turns_base rank * jumps) × (result.rate ≡ turns_rate rank * jumps) }
    ensures few_jumps { FewJumps result }
{
    let corners = rank + 1;
    Delay {
        base: 2 * rank * jumps,
        rate: corners * corners * jumps,
    }
}

// A touch of q: turns around its closed walk.
fn touch_delay(
    space: &Space,
    first: &[u32],
    targets: &[Word],
    q: usize,
    level: &mut [Word],
    queue: &mut [Word],
    walk: &mut [Word],
) -> Delay
    requires { let m = space.now.plan.now.model in WalkRoom m space.now.table.now first.now targets.now (length level.old) (length queue.old) (length walk.old)
        × (q < states m) × (on_closed_walk (system_of_model m) q ≡ true) }
    ensures value { let m = space.now.plan.now.model in result ≡ move_delay m (touch_to q (closed_walk_labels (labelled_of_model m) q)) }
    ensures few_jumps { FewJumps result }
{
    let count = closed_walk::closed_walk(first, targets, q, level, queue, walk);
    let jumps = walk_jumps(space, q, &walk[..count]);
    let g = space.region_of(q);
    turns(u64::from(g.top_rank()), jumps)
}

// The step from p to q.
fn move_delay(
    space: &Space,
    first: &[u32],
    targets: &[Word],
    p: usize,
    q: usize,
    level: &mut [Word],
    queue: &mut [Word],
    walk: &mut [Word],
) -> Delay
    requires { let m = space.now.plan.now.model in WalkRoom m space.now.table.now first.now targets.now (length level.old) (length queue.old) (length walk.old)
        × (p < states m) × (q < states m) × (step (system_of_model m) p q ≡ true) }
    ensures value { let m = space.now.plan.now.model in result ≡ move_delay m (our_move (labelled_of_model m) p q) }
    ensures few_jumps { FewJumps result }
{
    match trail_writer::kind_of(space, p, q) {
        Kind::Flow(x) => Delay {
            base: label_jumps(x),
            rate: 0,
        },
        Kind::Face => Delay { base: 0, rate: 0 },
        Kind::Touch => touch_delay(space, first, targets, q, level, queue, walk),
    }
}

// Of all steps of our trail, whose states are given.
pub fn trail_delay(
    space: &Space,
    first: &[u32],
    targets: &[Word],
    path: &[Word],
    level: &mut [Word],
    queue: &mut [Word],
    walk: &mut [Word],
) -> Delay
    requires { let m = space.now.plan.now.model in WalkRoom m space.now.table.now first.now targets.now (length level.old) (length queue.old) (length walk.old)
        × (unsafe (system_of_model m) ≡ true) × (path.now ≡ trail_states (system_of_model m)) }
    ensures { result ≡ our_delay space.now.plan.now.model }
{
    let mut base = 0;
    let mut rate = 0;
    let mut p = usize::from(space.plan.model.start) * space.table.len();
    for &q in path {
        let q = usize::from(q);
        let delay = move_delay(space, first, targets, p, q, level, queue, walk);
        base += delay.base;
        rate += delay.rate;
        p = q;
    }
    Delay { base, rate }
}
