// The marks of the quicker judge, for plans with a joint reset: those of the system without touch steps.
#![tactic(auto)]

ghost use Rattle.std.specs.Prelude.{◌≡◌, length};
ghost use Rattle.call.specs.Scratch.{lengths, ScratchLeft};
ghost use Rattle.op_marks.specs.Marks.{marking_answer};
ghost use Rattle.op_marks_joint.specs.MarksJoint.{joint_marked, joint_output};

use call::Scratch;
use limits::Word;
use limits::refusal::Refusal;
use op_marks::Marking;

// 02 (g): the marks, as 01's call leaves them, of a plan in which each closed walk that counts has an edge that resets every clock; or a refusal, 1 to
// 8, then 17 for any other plan, then 9.
pub fn marks_joint(
    bytes: &[u8],
    s1: &mut [Word],
    s2: &mut [Word],
    s3: &mut [Word],
    s4: &mut [Word],
    out: &mut [u8],
) -> Result<usize, Refusal>
    ensures result_value { marking_answer result ≡ joint_marked bytes.now (lengths s1.old s2.old s3.old s4.old) (length out.old) }
    ensures out_after { out.new ≡ joint_output bytes.now (lengths s1.old s2.old s3.old s4.old) out.old }
    ensures scratch_left { ScratchLeft bytes.now s1.old s2.old s3.old s4.old
        s1.new s2.new s3.new s4.new }
{
    let mut s = Scratch {
        first: s1,
        second: s2,
        third: s3,
        fourth: s4,
    };
    call::call(&Marking { touch: false }, bytes, &mut s, out)
}
