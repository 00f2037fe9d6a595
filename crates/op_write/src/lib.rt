// The evidence writer: our evidence for a plan.
#![tactic(auto)]

ghost use Rattle.std.specs.Prelude.{◌≡◌, length};
ghost use Rattle.graph.specs.States.{states};
ghost use Rattle.spelling.specs.Lays.{filled};
ghost use Rattle.evidence_writer.specs.Written.{numbered, evidence_by, written_by};
ghost use Rattle.call.specs.Scratch.{lengths, ScratchLeft};
ghost use Rattle.call.specs.Lent.{Just, AllZero, SameLoans};
ghost use Rattle.op_write.specs.Write.{write_answer, write_output, written_answer};

use call::{Operation, Scratch};
pub use evidence_writer::Written;
use limits::Word;
use limits::refusal::Refusal;
use model::Plan;

// With slices of just S numbers, which are zero afterwards: the evidence of the system with touch steps or without, whatever resets the plan has.
pub fn write_model(
    plan: &Plan,
    touch: bool,
    s: &mut Scratch,
    out: &mut [u8],
) -> Result<Written, Refusal>
    requires { Just (states plan.now.model) s.old }
    ensures value { (numbered result ≡ written_by touch plan.now.model (length out.old)) × (out.new ≡ filled (evidence_by touch plan.now.model) out.old) }
    ensures zeroed { AllZero s.old s.new }
    ensures same { SameLoans s.old s.new }
{
    let found = evidence_writer::write(plan, touch, s.first, s.second, s.third, s.fourth, out);
    s.clear();
    found
}

// The evidence with touch steps or, for plans with a joint reset, without.
#[derive(Clone, Copy)]
pub struct Writing {
    pub touch: bool,
}

impl Operation for Writing {
    ghost use Rattle.op_write.specs.Write.{written_values, writing_says, writing_leaves};

    type Value = Written;

    ghost values = { written_values };

    ghost says = { λ o m room. writing_says o.touch m room };

    ghost writes = { λ o m out. writing_leaves o.touch m out };

    fn run(&self, plan: &Plan, s: &mut Scratch, out: &mut [u8]) -> Result<Written, Refusal> {
        call::check_joint(plan, self.touch)?;
        evidence_writer::write(plan, self.touch, s.first, s.second, s.third, s.fourth, out)
    }
}

// 01: our evidence for the plan that the bytes spell, from the output's first byte on; the verdict and the number of bytes come back, or a refusal, 1 to 9.
pub fn write_evidence(
    bytes: &[u8],
    s1: &mut [Word],
    s2: &mut [Word],
    s3: &mut [Word],
    s4: &mut [Word],
    out: &mut [u8],
) -> Result<Written, Refusal>
    ensures result_value { written_answer (numbered result) ≡ write_answer bytes.now (lengths s1.old s2.old s3.old s4.old) (length out.old) }
    ensures out_after { out.new ≡ write_output bytes.now (lengths s1.old s2.old s3.old s4.old) out.old }
    ensures scratch_left { ScratchLeft bytes.now s1.old s2.old s3.old s4.old
        s1.new s2.new s3.new s4.new }
{
    let mut s = Scratch {
        first: s1,
        second: s2,
        third: s3,
        fourth: s4,
    };
    call::call(&Writing { touch: true }, bytes, &mut s, out)
}
