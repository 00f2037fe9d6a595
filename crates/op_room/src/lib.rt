// Room known beforehand: what to lend the other operations, from the plan alone.
#![tactic(auto)]

ghost use Rattle.std.specs.Prelude.{◌≡◌, ◌≤◌};
ghost use Rattle.limits.specs.Limits.{max_states};
ghost use Rattle.op_room.specs.Room.{sheet_limit, room_answer, space_answer};

use limits::refusal::Refusal;

// What a plan needs: S, the length of each scratch slice, the most bytes of a sheet, and the most steps of our trail.
#[derive(Clone, Copy, Debug, PartialEq, Eq)]
pub struct Space {
    pub states: usize,
    pub scratch: usize,
    pub sheet: usize,
    pub steps: usize,
}

// No sheet of so many states takes more bytes: one for its first number, and for each state as many as the largest number of a sheet takes.
fn sheet_limit(s: usize) -> usize
    requires { (1 ≤ s) × (s ≤ max_states) }
    ensures { result ≡ sheet_limit s }
{
    s * number::shortest_length((2 * s - 1) as u32) + 1
}

// 02: the room that the plan which the bytes spell needs, or a refusal, 1 to 7. Nothing is lent, and nothing is marked.
pub fn room(bytes: &[u8]) -> Result<Space, Refusal>
    ensures { space_answer result ≡ room_answer bytes.now }
{
    let plan = plan_reader::read_model(bytes)?;
    let s = graph::state_count(&plan);
    Ok(Space {
        states: s,
        scratch: s,
        sheet: sheet_limit(s),
        steps: s - 1,
    })
}
