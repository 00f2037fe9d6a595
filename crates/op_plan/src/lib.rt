// The plan writer: a plan in shortest numbers.
#![tactic(auto)]

ghost use Rattle.std.specs.Prelude.{◌≡◌, length};
ghost use Rattle.spelling.specs.Calls.{stored_answer};
ghost use Rattle.op_plan.specs.Plan.{plan_answer, plan_output};

use limits::refusal::Refusal;

// 02: the shortest form of the plan that the bytes spell, from the output's first byte on; the number of its bytes comes back, or a refusal, 1 to 7 and 9.
// It needs no scratch.
#[tactic(auto, using(parser::proofs::Stops::code_some), unfolding(crate::specs::Plan::plan_answer, crate::specs::Plan::plan_output, spelling::specs::Calls::bytes_answer, spelling::specs::Calls::bytes_output, spelling::specs::Calls::stored_answer, number::specs::Answer::answer))]
pub fn write_plan(bytes: &[u8], out: &mut [u8]) -> Result<usize, Refusal>
    ensures result_value { stored_answer result ≡ plan_answer bytes.now (length out.old) }
    ensures out_after { out.new ≡ plan_output bytes.now out.old }
{
    let plan = plan_reader::read_model(bytes)?;
    let need = plan_writer::write(&plan, out);
    if out.len() < need {
        return Err(Refusal::OutputShort);
    }
    Ok(need)
}
