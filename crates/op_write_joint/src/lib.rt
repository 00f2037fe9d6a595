// The evidence writer for plans with a joint reset: our evidence of the system without touch steps.
#![tactic(auto)]

ghost use Rattle.std.specs.Prelude.{◌≡◌, length};
ghost use Rattle.evidence_writer.specs.Written.{numbered};
ghost use Rattle.call.specs.Scratch.{lengths, ScratchLeft};
ghost use Rattle.op_write.specs.Write.{written_answer};
ghost use Rattle.op_write_joint.specs.WriteJoint.{joint_write_answer, joint_write_output};

use call::Scratch;
use limits::Word;
use limits::refusal::Refusal;
use op_write::{Writing, Written};

// 02 (g): our evidence for a plan in which each closed walk that counts has an edge that resets every clock, as 01's call leaves it, a trail being the
// least without touch; or a refusal, 1 to 8, then 17 for any other plan, then 9.
pub fn write_joint(
    bytes: &[u8],
    s1: &mut [Word],
    s2: &mut [Word],
    s3: &mut [Word],
    s4: &mut [Word],
    out: &mut [u8],
) -> Result<Written, Refusal>
    ensures result_value { written_answer (numbered result) ≡ joint_write_answer bytes.now (lengths s1.old s2.old s3.old s4.old) (length out.old) }
    ensures out_after { out.new ≡ joint_write_output bytes.now (lengths s1.old s2.old s3.old s4.old) out.old }
    ensures scratch_left { ScratchLeft bytes.now s1.old s2.old s3.old s4.old
        s1.new s2.new s3.new s4.new }
{
    let mut s = Scratch {
        first: s1,
        second: s2,
        third: s3,
        fourth: s4,
    };
    call::call(&Writing { touch: false }, bytes, &mut s, out)
}
