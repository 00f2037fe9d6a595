// The quicker judge, for plans with a joint reset: the judge's own code over the system without touch steps, so that no closed walks are searched.
#![tactic(auto)]

ghost use Rattle.std.specs.Prelude.{◌≡◌};
ghost use Rattle.call.specs.Scratch.{lengths, ScratchLeft};
ghost use Rattle.op_judge.specs.Judge.{judgement_answer};
ghost use Rattle.op_judge_joint.specs.JudgeJoint.{joint_judged};

use call::Scratch;
use limits::Word;
use limits::refusal::Refusal;
use op_judge::{Judgement, Judging};

// 02 (g): the judge's answer for a plan in which each closed walk that counts has an edge that resets every clock, the steps being those of our trail
// without touch; or a refusal, 1 to 8, and then 17 for any other plan.
pub fn judge_joint(
    bytes: &[u8],
    s1: &mut [Word],
    s2: &mut [Word],
    s3: &mut [Word],
    s4: &mut [Word],
) -> Result<Judgement, Refusal>
    ensures result_value { judgement_answer result ≡ joint_judged bytes.now (lengths s1.old s2.old s3.old s4.old) }
    ensures scratch_left { ScratchLeft bytes.now s1.old s2.old s3.old s4.old
        s1.new s2.new s3.new s4.new }
{
    let mut s = Scratch {
        first: s1,
        second: s2,
        third: s3,
        fourth: s4,
    };
    call::call(&Judging { touch: false }, bytes, &mut s, &mut [])
}
