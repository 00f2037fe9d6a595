// The margin by the drawing, beyond 01: how slight a drift is harmless for ever.
#![tactic(auto)]

ghost use Rattle.std.specs.Prelude.{◌≡◌};
ghost use Rattle.op_margin.specs.Margin.{margin_answer, tolerance_answer};

use limits::refusal::Refusal;

// The number of states, and a number A: every drift e/D below 1/A is harmless for ever if the plan is safe.
#[derive(Clone, Copy, Debug, PartialEq, Eq)]
pub struct Tolerance {
    pub states: usize,
    pub margin: u32,
}

// S, and the number A of the plan that the bytes spell; or a refusal, 1 to 7. It needs no scratch.
pub fn margin(bytes: &[u8]) -> Result<Tolerance, Refusal>
    ensures { tolerance_answer result ≡ margin_answer bytes.now }
{
    let plan = plan_reader::read_model(bytes)?;
    Ok(Tolerance {
        states: graph::state_count(&plan),
        margin: margin::margin(&plan),
    })
}
