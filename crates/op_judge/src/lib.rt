// The judge: the verdict on a plan.
#![tactic(auto)]

ghost use Rattle.std.specs.Prelude.{◌≡◌};
ghost use Rattle.theory.specs.WithoutTouch.{with_touch};
ghost use Rattle.graph.specs.Plan.{system_of_model};
ghost use Rattle.graph.specs.States.{states};
ghost use Rattle.marking.specs.Tables.{Distances};
ghost use Rattle.call.specs.Scratch.{lengths, ScratchLeft};
ghost use Rattle.call.specs.Lent.{Just, AllZero, SameLoans};
ghost use Rattle.op_judge.specs.Judge.{verdict, judged, judgement_answer, judgement_values};

use call::{Operation, Scratch};
use limits::Word;
use limits::refusal::Refusal;
use model::Plan;

// The verdict, with the number of states, and the marked states or the steps of our trail.
#[derive(Clone, Copy, Debug, PartialEq, Eq)]
pub enum Judgement {
    Safe(usize, usize),
    Unsafe(usize, usize),
}

// The verdict from the distances of all states. Whether they are with touch steps is for the contract; no code reads it here.
fn verdict_of(plan: &Plan, touch: bool, distances: &[Word]) -> Judgement
    requires { Distances (with_touch touch (system_of_model plan.now.model)) distances.now }
    ensures { judgement_values result ≡ verdict (with_touch touch (system_of_model plan.now.model)) }
{
    let s = distances.len();
    let m = plan.model;
    let regions = region_table::count(m.clocks, m.ceiling);
    match marking::fewest(distances, &m.kind, usize::from(regions)) {
        Some(steps) => Judgement::Unsafe(s, steps),
        None => Judgement::Safe(s, marking::count_marked(distances)),
    }
}

// With slices of just S numbers, which are zero afterwards: the verdict of the system with touch steps or without, whatever resets the plan has.
pub fn judge_model(plan: &Plan, touch: bool, s: &mut Scratch) -> Judgement
    requires { Just (states plan.now.model) s.old }
    ensures result_value { judgement_values result ≡ verdict (with_touch touch (system_of_model plan.now.model)) }
    ensures zeroed { AllZero s.old s.new }
    ensures same { SameLoans s.old s.new }
{
    survey::survey(plan, touch, s.first, s.second, s.third, s.fourth);
    let found = verdict_of(plan, touch, s.second);
    s.clear();
    found
}

// The judge with touch steps or, for plans with a joint reset, without.
#[derive(Clone, Copy)]
pub struct Judging {
    pub touch: bool,
}

impl Operation for Judging {
    ghost use Rattle.op_judge.specs.Judge.{judgement_values, judge_says};

    type Value = Judgement;

    ghost values = { judgement_values };

    ghost says = { λ j m _. judge_says j.touch m };

    ghost writes = { λ _ _ out. out };

    fn run(&self, plan: &Plan, s: &mut Scratch, _out: &mut [u8]) -> Result<Judgement, Refusal> {
        call::check_joint(plan, self.touch)?;
        survey::survey(plan, self.touch, s.first, s.second, s.third, s.fourth);
        Ok(verdict_of(plan, self.touch, s.second))
    }
}

// 01: the verdict on the plan that the bytes spell, with S and the count of marked states or of our trail's steps; or a refusal, 1 to 8.
pub fn judge(
    bytes: &[u8],
    s1: &mut [Word],
    s2: &mut [Word],
    s3: &mut [Word],
    s4: &mut [Word],
) -> Result<Judgement, Refusal>
    ensures result_value { judgement_answer result ≡ judged bytes.now (lengths s1.old s2.old s3.old s4.old) }
    ensures scratch_left { ScratchLeft bytes.now s1.old s2.old s3.old s4.old
        s1.new s2.new s3.new s4.new }
{
    let mut s = Scratch {
        first: s1,
        second: s2,
        third: s3,
        fourth: s4,
    };
    call::call(&Judging { touch: true }, bytes, &mut s, &mut [])
}
