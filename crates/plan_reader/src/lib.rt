// A plan read from bytes and admitted: refused for its bytes, refused for a walk of its edges, or accepted.
#![tactic(auto)]

ghost use Rattle.std.specs.Prelude.{◌≡◌};
ghost use Rattle.parser.specs.Parse.{numbered};
ghost use Rattle.plan_reader.specs.Accept.{read_model};

use edge_walks::leaves_unreset;
use limits::refusal::Refusal;
use model::Plan;

// The plan that the bytes spell, or the refusal, 1 to 7.
#[tactic(auto, using(parser::proofs::Stops::code_some), unfolding(crate::specs::Accept::read_model))]
pub fn read_model(bytes: &[u8]) -> Result<Plan, Refusal>
    ensures { numbered result ≡ read_model bytes.now }
{
    let plan = parser::parse_model(bytes)?;
    if leaves_unreset(&plan.model) {
        return Err(Refusal::UnresetWalk);
    }
    Ok(plan)
}
