// What all operations on a plan share: it is read and its scratch measured before anything is touched, and the scratch that was used is cleared.
#![tactic(auto)]

mod lent;
mod operation;

ghost use Rattle.std.specs.Prelude.{◌≡◌, [], ◌∷◌, length, IfOk};
ghost use Rattle.limits.specs.Refusal.{refusal_number};
ghost use Rattle.plan_reader.specs.Accept.{read_model};
ghost use Rattle.call.specs.Admitted.{Admitted};
ghost use Rattle.call.specs.Call.{enough, refusal};
ghost use Rattle.call.specs.Joint.{disjoint_for};
ghost use Rattle.call.specs.Scratch.{Cleared};

pub use lent::Scratch;
use limits::Word;
use limits::refusal::Refusal;
use model::Plan;
pub use operation::{Operation, call};

// A plan that a call goes on with, and its number of states.
#[derive(Clone, Copy)]
pub struct Admission {
    pub states: usize,
    pub plan: Plan,
}

// Each of four slices is long enough.
fn is_enough(s: usize, s1: usize, s2: usize, s3: usize, s4: usize) -> bool
    ensures { result ≡ enough s (s1 ∷ s2 ∷ s3 ∷ s4 ∷ []) }
{
    (s <= s1) & ((s <= s2) & ((s <= s3) & (s <= s4)))
}

// The plan that the bytes spell, if it is accepted, and S, whatever is lent; or the refusal, 1 to 7.
pub fn read(bytes: &[u8]) -> Result<Admission, Refusal>
    ensures refused { refusal_number result ≡ (read_model bytes.now).refusal }
    ensures admitted { IfOk result (Admitted bytes.now) }
{
    let plan = plan_reader::read_model(bytes)?;
    let states = graph::state_count(&plan);
    Ok(Admission { states, plan })
}

// The same, if four slices of these lengths are long enough for it; else refusal 8.
pub fn admit(bytes: &[u8], s1: usize, s2: usize, s3: usize, s4: usize) -> Result<Admission, Refusal>
    ensures refused { refusal_number result ≡ refusal bytes.now (s1 ∷ s2 ∷ s3 ∷ s4 ∷ []) }
    ensures admitted { IfOk result (Admitted bytes.now) }
{
    let a = read(bytes)?;
    if is_enough(a.states, s1, s2, s3, s4) {
        return Ok(a);
    }
    Err(Refusal::ScratchShort)
}

// A call without touch steps refuses a plan in which a closed walk that counts has no edge that resets every clock.
pub fn check_joint(plan: &Plan, touch: bool) -> Result<(), Refusal>
    ensures { refusal_number result ≡ disjoint_for touch plan.now.model }
{
    if !touch && edge_walks::lacks_joint_reset(&plan.model) {
        return Err(Refusal::NotJoint);
    }
    Ok(())
}

// All four slices at zero.
pub fn clear_all(s1: &mut [Word], s2: &mut [Word], s3: &mut [Word], s4: &mut [Word])
    ensures { Cleared (length s1.old) (length s2.old) (length s3.old) (length s4.old)
        s1.new s2.new s3.new s4.new }
{
    s1.fill(0);
    s2.fill(0);
    s3.fill(0);
    s4.fill(0);
}
