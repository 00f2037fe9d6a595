// A trail spelled into a lent output, or measured with none, from the states that it comes to.
#![tactic(auto)]

mod kind;

ghost use Rattle.std.specs.Prelude.{◌≡◌, true, ◌+◌, ◌<◌, ◌≤◌, length};
ghost use Rattle.theory.specs.System.{on_closed_walk};
ghost use Rattle.theory.specs.Marked.{step};
ghost use Rattle.theory.specs.Labels.{closed_walk_labels};
ghost use Rattle.theory.specs.Replay.{touch_to, our_move, moves_along};
ghost use Rattle.number.specs.Number.{spell_all};
ghost use Rattle.graph.specs.Plan.{automaton_of, system_of_model, labelled_of_model};
ghost use Rattle.graph.specs.States.{states};
ghost use Rattle.spelling.specs.Lays.{Lays, max_bytes};
ghost use Rattle.replay.specs.Spelling.{move_numbers, moves_numbers};
ghost use Rattle.trail_writer.specs.Lent.{WalkRoom, LeadsThrough};
ghost use Rattle.trail_writer.specs.Path.{path_numbers};

use graph::Space;
pub use kind::{Kind, kind_of};
use limits::Word;

// A touch of q, with its closed walk.
fn put_touch(
    space: &Space,
    first: &[u32],
    targets: &[Word],
    q: usize,
    level: &mut [Word],
    queue: &mut [Word],
    walk: &mut [Word],
    out: &mut [u8],
    at: usize,
) -> usize
    requires { let m = space.now.plan.now.model in WalkRoom m space.now.table.now first.now targets.now (length level.old) (length queue.old) (length walk.old)
        × (q < states m) × (on_closed_walk (system_of_model m) q ≡ true)
        × (at + length (spell_all (move_numbers (automaton_of m) (touch_to q (closed_walk_labels (labelled_of_model m) q)))) ≤ max_bytes) }
    ensures { let m = space.now.plan.now.model in Lays out.old out.new at result
        (spell_all (move_numbers (automaton_of m) (touch_to q (closed_walk_labels (labelled_of_model m) q)))) }
{
    let count = closed_walk::closed_walk(first, targets, q, level, queue, walk);
    let a = spelling::put(out, at, 3);
    let b = step_writer::put_region(space, q, out, a);
    let c = spelling::put(out, b, count as u32);
    step_writer::put_walk(space, q, &walk[..count], out, c)
}

// The step from p to q.
fn put_move(
    space: &Space,
    first: &[u32],
    targets: &[Word],
    p: usize,
    q: usize,
    level: &mut [Word],
    queue: &mut [Word],
    walk: &mut [Word],
    out: &mut [u8],
    at: usize,
) -> usize
    requires { let m = space.now.plan.now.model in WalkRoom m space.now.table.now first.now targets.now (length level.old) (length queue.old) (length walk.old)
        × (p < states m) × (q < states m) × (step (system_of_model m) p q ≡ true)
        × (at + length (spell_all (move_numbers (automaton_of m) (our_move (labelled_of_model m) p q))) ≤ max_bytes) }
    ensures { let m = space.now.plan.now.model in Lays out.old out.new at result (spell_all (move_numbers (automaton_of m) (our_move (labelled_of_model m) p q))) }
{
    match kind_of(space, p, q) {
        Kind::Flow(x) => step_writer::put_label(out, at, x),
        Kind::Face => {
            let a = spelling::put(out, at, 2);
            step_writer::put_region(space, q, out, a)
        }
        Kind::Touch => put_touch(space, first, targets, q, level, queue, walk, out, at),
    }
}

// The steps from a state through given ones.
fn put_moves(
    space: &Space,
    first: &[u32],
    targets: &[Word],
    start: usize,
    path: &[Word],
    level: &mut [Word],
    queue: &mut [Word],
    walk: &mut [Word],
    out: &mut [u8],
    at: usize,
) -> usize
    requires { let m = space.now.plan.now.model in WalkRoom m space.now.table.now first.now targets.now (length level.old) (length queue.old) (length walk.old)
        × LeadsThrough m start path.now × (length path.now ≤ states m)
        × (at + length (spell_all (moves_numbers (automaton_of m) (moves_along (labelled_of_model m) start path.now))) ≤ max_bytes) }
    ensures { let m = space.now.plan.now.model in Lays out.old out.new at result
        (spell_all (moves_numbers (automaton_of m) (moves_along (labelled_of_model m) start path.now))) }
{
    let mut end = at;
    let mut p = start;
    for &q in path {
        let q = usize::from(q);
        end = put_move(space, first, targets, p, q, level, queue, walk, out, end);
        p = q;
    }
    end
}

// The trail from the start through given states: 2, the step count, the steps.
pub fn put_trail(
    space: &Space,
    first: &[u32],
    targets: &[Word],
    path: &[Word],
    level: &mut [Word],
    queue: &mut [Word],
    walk: &mut [Word],
    out: &mut [u8],
) -> usize
    requires { let m = space.now.plan.now.model in WalkRoom m space.now.table.now first.now targets.now (length level.old) (length queue.old) (length walk.old)
        × LeadsThrough m (system_of_model m).start path.now × (length path.now ≤ states m) }
    ensures { Lays out.old out.new 0 result (spell_all (path_numbers space.now.plan.now.model path.now)) }
{
    let m = &space.plan.model;
    let start = usize::from(m.start) * space.table.len();
    let a = spelling::put(out, 0, 2);
    let b = spelling::put(out, a, path.len() as u32);
    put_moves(
        space, first, targets, start, path, level, queue, walk, out, b,
    )
}
