// The marks: a byte for each state of a plan.
#![tactic(auto)]

ghost use Rattle.std.specs.Prelude.{◌≡◌, [], ◌∷◌, length};
ghost use Rattle.theory.specs.WithoutTouch.{with_touch};
ghost use Rattle.graph.specs.Plan.{system_of_model};
ghost use Rattle.graph.specs.States.{states};
ghost use Rattle.marking.specs.Tables.{Distances};
ghost use Rattle.number.specs.Answer.{answer};
ghost use Rattle.call.specs.Scratch.{lengths, ScratchLeft};
ghost use Rattle.call.specs.Lent.{Just, AllZero, SameLoans};
ghost use Rattle.op_marks.specs.Marks.{short, marks_in, marked, marks_of, output, marking_answer};

use call::{Operation, Scratch};
use limits::Word;
use limits::refusal::Refusal;
use model::Plan;

// A mark for each state from its distance. Whether that is with touch steps is for the contract; no code reads it here.
fn put_marks(plan: &Plan, touch: bool, distances: &[Word], out: &mut [u8])
    requires { Distances (with_touch touch (system_of_model plan.now.model)) distances.now × (length out.old ≡ states plan.now.model) }
    ensures { out.new ≡ marks_of (with_touch touch (system_of_model plan.now.model)) }
{
    for p in 0..distances.len() {
        out[p] = u8::from(0 < distances[p]);
    }
}

// With slices of just S numbers, which are zero afterwards: the marks of the system with touch steps or without, whatever resets the plan has; 9 where
// the output is too short.
pub fn mark_into(
    plan: &Plan,
    touch: bool,
    s: &mut Scratch,
    out: &mut [u8],
) -> Result<usize, Refusal>
    requires { Just (states plan.now.model) s.old }
    ensures result_value { marking_answer result ≡ answer (short (length out.old) plan.now.model) (states plan.now.model ∷ []) }
    ensures out_after { out.new ≡ marks_in (with_touch touch (system_of_model plan.now.model)) out.old }
    ensures zeroed { AllZero s.old s.new }
    ensures same { SameLoans s.old s.new }
{
    let many = s.first.len();
    if out.len() < many {
        s.clear();
        return Err(Refusal::OutputShort);
    }
    survey::survey(plan, touch, s.first, s.second, s.third, s.fourth);
    put_marks(plan, touch, s.second, &mut out[..many]);
    s.clear();
    Ok(many)
}

// The marks with touch steps or, for plans with a joint reset, without.
#[derive(Clone, Copy)]
pub struct Marking {
    pub touch: bool,
}

impl Operation for Marking {
    ghost use Rattle.op_marks.specs.Marks.{marking_values, marking_says, marking_writes};

    type Value = usize;

    ghost values = { marking_values };

    ghost says = { λ o m room. marking_says o.touch room m };

    ghost writes = { λ o m out. marking_writes o.touch m out };

    fn run(&self, plan: &Plan, s: &mut Scratch, out: &mut [u8]) -> Result<usize, Refusal> {
        call::check_joint(plan, self.touch)?;
        let states = s.first.len();
        if out.len() < states {
            return Err(Refusal::OutputShort);
        }
        survey::survey(plan, self.touch, s.first, s.second, s.third, s.fourth);
        put_marks(plan, self.touch, s.second, &mut out[..states]);
        Ok(states)
    }
}

// 01: into the output's first S bytes a mark for each state of the plan that the bytes spell, 1 if it is marked and else 0; S comes back, or a
// refusal, 1 to 9.
pub fn marks(
    bytes: &[u8],
    s1: &mut [Word],
    s2: &mut [Word],
    s3: &mut [Word],
    s4: &mut [Word],
    out: &mut [u8],
) -> Result<usize, Refusal>
    ensures result_value { marking_answer result ≡ marked bytes.now (lengths s1.old s2.old s3.old s4.old) (length out.old) }
    ensures out_after { out.new ≡ output bytes.now (lengths s1.old s2.old s3.old s4.old) out.old }
    ensures scratch_left { ScratchLeft bytes.now s1.old s2.old s3.old s4.old
        s1.new s2.new s3.new s4.new }
{
    let mut s = Scratch {
        first: s1,
        second: s2,
        third: s3,
        fourth: s4,
    };
    call::call(&Marking { touch: true }, bytes, &mut s, out)
}
