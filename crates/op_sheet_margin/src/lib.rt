// How slight a drift is harmless for ever, by the plan's own sheet.
#![tactic(auto)]

ghost use Rattle.std.specs.Prelude.{◌≡◌};
ghost use Rattle.call.specs.Scratch.{lengths, ScratchLeft};
ghost use Rattle.op_sheet_margin.specs.SheetMargin.{bound_in, bound_values_of, sheet_margin_answer, bound_answer};

use call::{Operation, Scratch};
use limits::Word;
use limits::refusal::Refusal;
use model::Plan;
use outlook::Outlook;

// The number of states, and the margin if the plan is safe.
#[derive(Clone, Copy, Debug, PartialEq, Eq)]
pub enum Bound {
    Safe(usize, usize),
    Unsafe(usize),
}

#[tactic(auto, unfolding(crate::specs::SheetMargin::bound_in))]
fn bound_of(s: usize, found: Outlook) -> Bound
    ensures { bound_values_of result ≡ bound_in s found }
{
    match found {
        Outlook::Safe(margin) => Bound::Safe(s, margin),
        Outlook::Unsafe(_, _) => Bound::Unsafe(s),
    }
}

#[derive(Clone, Copy)]
struct MarginSearch;

impl Operation for MarginSearch {
    ghost use Rattle.number.specs.Answer.{answer};
    ghost use Rattle.op_sheet_margin.specs.SheetMargin.{bound_values, bound_values_of};

    type Value = Bound;

    ghost values = { bound_values_of };

    ghost says = { λ _ m _. answer 0 (bound_values m) };

    ghost writes = { λ _ _ out. out };

    fn run(&self, plan: &Plan, s: &mut Scratch, _out: &mut [u8]) -> Result<Bound, Refusal> {
        let states = s.first.len();
        let found = outlook::find(plan, false, s.first, s.second, s.third, s.fourth);
        Ok(bound_of(states, found))
    }
}

// A for a safe plan: every drift below 1/A of a unit is harmless for ever; or a refusal, 1 to 8.
pub fn sheet_margin(
    bytes: &[u8],
    s1: &mut [Word],
    s2: &mut [Word],
    s3: &mut [Word],
    s4: &mut [Word],
) -> Result<Bound, Refusal>
    ensures result_value { bound_answer result
        ≡ sheet_margin_answer bytes.now (lengths s1.old s2.old s3.old s4.old) }
    ensures scratch_left { ScratchLeft bytes.now s1.old s2.old s3.old s4.old
        s1.new s2.new s3.new s4.new }
{
    let mut s = Scratch {
        first: s1,
        second: s2,
        third: s3,
        fourth: s4,
    };
    call::call(&MarginSearch, bytes, &mut s, &mut [])
}
