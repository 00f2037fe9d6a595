// How soon drift does harm, by the plan's own trail.
#![tactic(auto)]

ghost use Rattle.std.specs.Prelude.{◌≡◌};
ghost use Rattle.call.specs.Scratch.{lengths, ScratchLeft};
ghost use Rattle.op_harm.specs.Harm.{harm_in, onset_values, harm_answer, onset_answer};

use call::{Operation, Scratch};
use limits::Word;
use limits::refusal::Refusal;
use model::Plan;
use outlook::Outlook;

// The number of states, and base and rate if the plan is unsafe.
#[derive(Clone, Copy, Debug, PartialEq, Eq)]
pub enum Onset {
    Safe(usize),
    Within(usize, u64, u64),
}

#[tactic(auto, unfolding(crate::specs::Harm::harm_in))]
fn onset_of(s: usize, found: Outlook) -> Onset
    ensures { onset_values result ≡ harm_in s found }
{
    match found {
        Outlook::Safe(_) => Onset::Safe(s),
        Outlook::Unsafe(base, rate) => Onset::Within(s, base, rate),
    }
}

#[derive(Clone, Copy)]
struct HarmSearch;

impl Operation for HarmSearch {
    ghost use Rattle.number.specs.Answer.{answer};
    ghost use Rattle.op_harm.specs.Harm.{harm_values, onset_values};

    type Value = Onset;

    ghost values = { onset_values };

    ghost says = { λ _ m _. answer 0 (harm_values m) };

    ghost writes = { λ _ _ out. out };

    fn run(&self, plan: &Plan, s: &mut Scratch, _out: &mut [u8]) -> Result<Onset, Refusal> {
        let states = s.first.len();
        let found = outlook::find(plan, true, s.first, s.second, s.third, s.fourth);
        Ok(onset_of(states, found))
    }
}

// Base and rate of an unsafe plan: drift of 1/q of a unit or more does harm within base + rate · q jumps; or a refusal, 1 to 8.
pub fn harm(
    bytes: &[u8],
    s1: &mut [Word],
    s2: &mut [Word],
    s3: &mut [Word],
    s4: &mut [Word],
) -> Result<Onset, Refusal>
    ensures result_value { onset_answer result
        ≡ harm_answer bytes.now (lengths s1.old s2.old s3.old s4.old) }
    ensures scratch_left { ScratchLeft bytes.now s1.old s2.old s3.old s4.old
        s1.new s2.new s3.new s4.new }
{
    let mut s = Scratch {
        first: s1,
        second: s2,
        third: s3,
        fourth: s4,
    };
    call::call(&HarmSearch, bytes, &mut s, &mut [])
}
