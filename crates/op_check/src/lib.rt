// The evidence check: anyone's evidence for a plan.
#![tactic(auto)]

ghost use Rattle.std.specs.Prelude.{◌≡◌};
ghost use Rattle.evidence.specs.Evidence.{numbered};
ghost use Rattle.call.specs.Scratch.{lengths, ScratchLeft};
ghost use Rattle.op_check.specs.Check.{check_answer, evidence_answer};

use call::{Operation, Scratch};
pub use evidence::Evidence;
use limits::Word;
use limits::refusal::Refusal;
use model::Plan;

// The check of these bytes as evidence.
#[derive(Clone, Copy)]
struct Checking<'a> {
    evidence: &'a [u8],
}

impl<'a> Operation for Checking<'a> {
    ghost use Rattle.evidence.specs.Evidence.{checked};
    ghost use Rattle.op_check.specs.Check.{evidence_answer, evidence_values};

    type Value = Evidence;

    ghost values = { evidence_values };

    ghost says = { λ c m _. evidence_answer (checked m c.evidence.now) };

    ghost writes = { λ _ _ out. out };

    fn run(&self, plan: &Plan, s: &mut Scratch, _out: &mut [u8]) -> Result<Evidence, Refusal> {
        evidence::check(plan, self.evidence, s.first)
    }
}

// 01: whether the second bytes are evidence that passes for the plan that the first spell, and of which kind; or a refusal, 1 to 8 for the plan, 1, 2, 6
// and 10 to 15 for the evidence.
pub fn check_evidence(
    bytes: &[u8],
    evidence: &[u8],
    s1: &mut [Word],
    s2: &mut [Word],
    s3: &mut [Word],
    s4: &mut [Word],
) -> Result<Evidence, Refusal>
    ensures result_value { evidence_answer (numbered result) ≡ check_answer bytes.now evidence.now (lengths s1.old s2.old s3.old s4.old) }
    ensures scratch_left { ScratchLeft bytes.now s1.old s2.old s3.old s4.old
        s1.new s2.new s3.new s4.new }
{
    let mut s = Scratch {
        first: s1,
        second: s2,
        third: s3,
        fourth: s4,
    };
    call::call(&Checking { evidence }, bytes, &mut s, &mut [])
}
