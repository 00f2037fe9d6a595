// Soonest sounding, 02 (e): the least time from the start to a location with perfect clocks.
#![tactic(auto)]

ghost use Rattle.std.specs.Prelude.{◌≡◌, [], ◌∷◌, length};
ghost use Rattle.number.specs.Answer.{answer};
ghost use Rattle.graph.specs.States.{states};
ghost use Rattle.least_time.specs.LeastTime.{least_time};
ghost use Rattle.call.specs.Scratch.{lengths, ScratchLeft};
ghost use Rattle.op_soonest.specs.Sounding.{unreached, soonest_answer, arrival_answer};

use call::{Operation, Scratch};
use limits::Word;
use limits::refusal::Refusal;
use model::Plan;

// The least time, with two slices of just S numbers, which are left with numbers of the search.
fn time_to(plan: &Plan, location: u64, s1: &mut [Word], s2: &mut [Word]) -> Result<usize, Refusal>
    requires { (length s1.old ≡ states plan.now.model) × (length s2.old ≡ states plan.now.model) }
    ensures { arrival_answer result ≡ answer (unreached plan.now.model location) (least_time plan.now.model location ∷ []) }
{
    if location >= plan.model.locations as u64 {
        return Err(Refusal::Unreached);
    }
    least_time::least_time(plan, location as usize, s1, s2).ok_or(Refusal::Unreached)
}

// The search for one location.
#[derive(Clone, Copy)]
struct Search {
    location: u64,
}

impl Operation for Search {
    ghost use Rattle.op_soonest.specs.Sounding.{arrival_values, soonest_says};

    type Value = usize;

    ghost values = { arrival_values };

    ghost says = { λ o m _. soonest_says m o.location };

    ghost writes = { λ _ _ out. out };

    fn run(&self, plan: &Plan, s: &mut Scratch, _out: &mut [u8]) -> Result<usize, Refusal> {
        time_to(plan, self.location, s.first, s.second)
    }
}

// The least time from the start to a location of the plan that the bytes spell, in units; or a refusal, 1 to 8, and then 16 where there is no such
// location or no run gets there.
pub fn soonest(
    bytes: &[u8],
    location: u64,
    s1: &mut [Word],
    s2: &mut [Word],
    s3: &mut [Word],
    s4: &mut [Word],
) -> Result<usize, Refusal>
    ensures result_value { arrival_answer result
        ≡ soonest_answer bytes.now location (lengths s1.old s2.old s3.old s4.old) }
    ensures scratch_left { ScratchLeft bytes.now s1.old s2.old s3.old s4.old
        s1.new s2.new s3.new s4.new }
{
    let mut s = Scratch {
        first: s1,
        second: s2,
        third: s3,
        fourth: s4,
    };
    call::call(&Search { location }, bytes, &mut s, &mut [])
}
