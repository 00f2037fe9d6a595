// The numbers of evidence. What reads evidence reads its numbers here, and what speaks of their spellings uses the names of specs/Evidence.
// 02 (b): only here, and nowhere in `number`, padding is refused.
#![tactic(auto)]

ghost use Rattle.std.specs.Prelude.{◌≡◌};
ghost use Rattle.number.specs.Number.{numbered};
ghost use Rattle.evidence_number.specs.Evidence.{read_evidence};

use limits::refusal::Refusal;
use number::{Number, Spelled};

// The number at an offset.
#[tactic(auto, unfolding(crate::specs::Evidence::read_evidence))]
pub fn read(bytes: &[u8], at: usize) -> Number
    ensures { numbered result ≡ read_evidence bytes.now at }
{
    match number::read_spelled(bytes, at) {
        Spelled::Shortest(v, next) => Number::Value(v, next),
        Spelled::Padded(_, _) => Number::Refused(Refusal::Padded),
        Spelled::Refused(r) => Number::Refused(r),
    }
}
