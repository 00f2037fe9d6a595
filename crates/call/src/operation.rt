// The frame of every operation that is lent scratch: the plan is admitted or refused, the operation gets just S numbers of each slice, and these are
// cleared afterwards.
ghost use Rattle.std.specs.Prelude.{◌≡◌, ◌≤◌, List, ℕ, length, replicate, drop, ◌++◌};
ghost use Rattle.model.specs.declared.Model.{Model};
ghost use Rattle.number.specs.Answer.{Answer};
ghost use Rattle.graph.specs.States.{states};
ghost use Rattle.call.specs.Admitted.{called, written};
ghost use Rattle.call.specs.Answered.{answered};
ghost use Rattle.call.specs.Call.{model_of, refusal};
ghost use Rattle.call.specs.Lent.{Just, SameLoans, LeftBy, lengths_of};
ghost use Rattle.call.specs.Scratch.{cleared};

use super::admit;
use super::lent::Scratch;
use limits::Word;
use limits::refusal::Refusal;
use model::Plan;

// What an operation does with an admitted plan and slices of just S numbers.
pub trait Operation {
    type Value: Drop;

    // the values of an answer
    ghost values: { Self.Value → List ℕ };

    // what it says of a model, with an output of so many bytes
    ghost says: { Self → Model → ℕ → Answer };

    // what it leaves in the output
    ghost writes: { Self → Model → List ℕ → List ℕ };

    fn run(&self, plan: &Plan, s: &mut Scratch, out: &mut [u8]) -> Result<Self::Value, Refusal>
        requires { Just (states plan.now.model) s.old }
        ensures value { answered values result ≡ says self.now plan.now.model (length out.old) }
        ensures out_after { out.new ≡ writes self.now plan.now.model out.old }
        ensures just { Just (states plan.now.model) s.new }
        ensures same { SameLoans s.old s.new };
}

// With slices of just S numbers, which are zero afterwards.
fn run_four<O: Operation>(
    op: &O,
    plan: &Plan,
    s1: &mut [Word],
    s2: &mut [Word],
    s3: &mut [Word],
    s4: &mut [Word],
    out: &mut [u8],
) -> Result<O::Value, Refusal>
    requires first { length s1.old ≡ states plan.now.model }
    requires second { length s2.old ≡ states plan.now.model }
    requires third { length s3.old ≡ states plan.now.model }
    requires fourth { length s4.old ≡ states plan.now.model }
    ensures value { answered O.values result ≡ O.says op.now plan.now.model (length out.old) }
    ensures out_after { out.new ≡ O.writes op.now plan.now.model out.old }
    ensures first { s1.new ≡ replicate (length s1.old) 0 }
    ensures second { s2.new ≡ replicate (length s2.old) 0 }
    ensures third { s3.new ≡ replicate (length s3.old) 0 }
    ensures fourth { s4.new ≡ replicate (length s4.old) 0 }
{
    let mut s = Scratch {
        first: s1,
        second: s2,
        third: s3,
        fourth: s4,
    };
    let found = op.run(plan, &mut s, out);
    s.clear();
    found
}

// A struct's slices are not cut where they stand, so four are cut, and one function more makes the struct of them.
fn run_front<O: Operation>(
    op: &O,
    plan: &Plan,
    n: usize,
    s1: &mut [Word],
    s2: &mut [Word],
    s3: &mut [Word],
    s4: &mut [Word],
    out: &mut [u8],
) -> Result<O::Value, Refusal>
    requires many { n ≡ states plan.now.model }
    requires first { n ≤ length s1.old }
    requires second { n ≤ length s2.old }
    requires third { n ≤ length s3.old }
    requires fourth { n ≤ length s4.old }
    ensures value { answered O.values result ≡ O.says op.now plan.now.model (length out.old) }
    ensures out_after { out.new ≡ O.writes op.now plan.now.model out.old }
    ensures first { s1.new ≡ cleared n s1.old }
    ensures second { s2.new ≡ cleared n s2.old }
    ensures third { s3.new ≡ cleared n s3.old }
    ensures fourth { s4.new ≡ cleared n s4.old }
{
    run_four(
        op,
        plan,
        &mut s1[..n],
        &mut s2[..n],
        &mut s3[..n],
        &mut s4[..n],
        out,
    )
}

// What an operation answers for the plan that the bytes spell, or a refusal, 1 to 8, which touches nothing.
pub fn call<O: Operation>(
    op: &O,
    bytes: &[u8],
    s: &mut Scratch,
    out: &mut [u8],
) -> Result<O::Value, Refusal>
    ensures value { answered O.values result
        ≡ called (O.says op.now (model_of bytes.now) (length out.old)) bytes.now (lengths_of s.old) }
    ensures out_after { out.new
        ≡ written (O.writes op.now (model_of bytes.now) out.old) bytes.now (lengths_of s.old) out.old }
    ensures left { LeftBy bytes.now s.old s.new }
    ensures same { SameLoans s.old s.new }
{
    let a = admit(
        bytes,
        s.first.len(),
        s.second.len(),
        s.third.len(),
        s.fourth.len(),
    )?;
    run_front(
        op, &a.plan, a.states, s.first, s.second, s.third, s.fourth, out,
    )
}
