// Labels, walks and regions as numbers into a lent output; each answers the offset after it.

ghost use Rattle.std.specs.Prelude.{ℕ, ◌+◌, ◌<◌, ◌≤◌, [], ◌∷◌, length, get_or, take};
ghost use Rattle.theory.specs.Enumeration.{key};
ghost use Rattle.theory.specs.Labels.{labels_along};
ghost use Rattle.theory.specs.StateGraph.{region_of};
ghost use Rattle.limits.specs.Limits.{max_edges};
ghost use Rattle.number.specs.Number.{spell_all};
ghost use Rattle.region.specs.Limits.{Clocks};
ghost use Rattle.graph.specs.Plan.{automaton_of, labelled_of_model};
ghost use Rattle.graph.specs.States.{states};
ghost use Rattle.trail_numbers.specs.Numbers.{label_number};
ghost use Rattle.replay.specs.Spelling.{label_numbers, walk_numbers};
ghost use Rattle.spelling.specs.Lays.{Lays, max_bytes};

use crate::label::walk_label;
use graph::Space;
use limits::Word;
use trail_numbers::Label;

// "0 time; 1 jump, edge number"
pub fn put_label(out: &mut [u8], at: usize, x: Label) -> usize
    requires { (label_number x ≤ max_edges + 1) × (at + length (spell_all (label_numbers (label_number x))) ≤ max_bytes) }
    ensures { Lays out.old out.new at result (spell_all (label_numbers (label_number x))) }
{
    match x {
        Label::Time => spelling::put(out, at, 0),
        Label::Jump(e) => {
            let end = spelling::put(out, at, 1);
            spelling::put(out, end, e)
        }
    }
}

// The steps from q through the states of a walk, each by its least label.
pub fn put_walk(space: &Space, q: usize, walk: &[Word], out: &mut [u8], at: usize) -> usize
    requires { let m = space.now.plan.now.model in (q < states m) × ((i : ℕ) → i < length walk.now → get_or walk.now i 0 < states m)
        × (at + length (spell_all (walk_numbers (labels_along (labelled_of_model m) q walk.now))) ≤ max_bytes) }
    ensures { Lays out.old out.new at result (spell_all (walk_numbers (labels_along (labelled_of_model space.now.plan.now.model) q walk.now))) }
{
    let mut p = q;
    let mut end = at;
    for &s in walk {
        let s = usize::from(s);
        end = put_label(out, end, walk_label(space, p, s));
        p = s;
    }
    end
}

// Numbers of a byte each.
fn put_numbers(out: &mut [u8], at: usize, numbers: &[u8]) -> usize
    requires { at + length (spell_all numbers.now) ≤ max_bytes }
    ensures { Lays out.old out.new at result (spell_all numbers.now) }
{
    let mut end = at;
    for &v in numbers {
        end = spelling::put(out, end, u32::from(v));
    }
    end
}

// The region of a state: all whole parts, then all ranks.
pub fn put_region(space: &Space, q: usize, out: &mut [u8], at: usize) -> usize
    requires { let m = space.now.plan.now.model in (q < states m) × (at + length (spell_all (key (region_of (automaton_of m) q))) ≤ max_bytes) }
    ensures { Lays out.old out.new at result (spell_all (key (region_of (automaton_of space.now.plan.now.model) q))) }
{
    let g = space.region_of(q);
    let n = usize::from(space.plan.model.clocks);
    let wholes = [g.w1, g.w2, g.w3];
    let ranks = [g.r1, g.r2, g.r3];
    let end = put_numbers(out, at, &wholes[..n]);
    put_numbers(out, end, &ranks[..n])
}
