// The rounds of a plan's marking. No public operation tells of them: this asks the search itself.
ghost use Rattle.std.specs.Prelude.{◌≡◌, ◌≤◌};
ghost use Rattle.limits.specs.Limits.{max_states};
ghost use Rattle.graph.specs.States.{states};
ghost use Rattle.call.specs.Scratch.{Scratch};

use super::answers::Answer;
use super::lent::Scratch;
use limits::{MAX_STATES, Word};
use model::Plan;

// How many rounds the marking takes, and how many states it marks.
fn counted(
    plan: &Plan,
    s1: &mut [Word],
    s2: &mut [Word],
    s3: &mut [Word],
    s4: &mut [Word],
) -> Answer
    requires { Scratch (states plan.now.model) s1.old s2.old s3.old s4.old }
{
    let rounds = survey::survey(plan, true, s1, s2, s3, s4);
    Answer::Two(usize::from(rounds), marking::count_marked(s2))
}

// The number of a plan's states, which find room in a scratch array.
fn room_of(plan: &Plan) -> usize
    ensures is_count { result ≡ states plan.now.model }
    ensures has_room { result ≤ max_states }
{
    graph::state_count(plan)
}

// The same as `counted`, with scratch of just the length that the plan needs.
fn counted_plan(plan: &Plan) -> Answer {
    let s = room_of(plan);
    let mut s1: Scratch = [7; MAX_STATES];
    let mut s2: Scratch = [7; MAX_STATES];
    let mut s3: Scratch = [7; MAX_STATES];
    let mut s4: Scratch = [7; MAX_STATES];
    counted(plan, &mut s1[..s], &mut s2[..s], &mut s3[..s], &mut s4[..s])
}

// The same of the plan that the bytes spell, or its refusal, 1 to 7.
pub fn rounds(plan: &[u8]) -> Answer {
    match plan_reader::read_model(plan) {
        Ok(plan) => counted_plan(&plan),
        Err(r) => Answer::Refused(r.code()),
    }
}
