// Why a call refuses, and the number that answers give it.

ghost use Rattle.std.specs.Prelude.{◌≡◌};
ghost use Rattle.limits.specs.Refusal.{code_of};

use std::error::Error;
use std::fmt;

#[derive(Clone, Copy, Debug, PartialEq, Eq, Hash)]
pub enum Refusal {
    EndsTooSoon,
    ThirdTopBit,
    // a number of the header out of range
    Header,
    Location,
    // or low above high
    Edge,
    BytesRemain,
    // a closed walk that counts leaves some clock unreset
    UnresetWalk,
    ScratchShort,
    OutputShort,
    // evidence begins with neither 1 nor 2
    NoEvidence,
    SheetNumber,
    SheetRule,
    TrailStep,
    TrailEnd,
    // a number of evidence is not in shortest form
    Padded,
    // there is no such location, or no run gets there
    Unreached,
    // a closed walk that counts has no edge that resets every clock
    NotJoint,
}

impl Refusal {
    pub fn code(self) -> u8
        ensures { result ≡ code_of self }
    {
        match self {
            Refusal::EndsTooSoon => 1,
            Refusal::ThirdTopBit => 2,
            Refusal::Header => 3,
            Refusal::Location => 4,
            Refusal::Edge => 5,
            Refusal::BytesRemain => 6,
            Refusal::UnresetWalk => 7,
            Refusal::ScratchShort => 8,
            Refusal::OutputShort => 9,
            Refusal::NoEvidence => 10,
            Refusal::SheetNumber => 11,
            Refusal::SheetRule => 12,
            Refusal::TrailStep => 13,
            Refusal::TrailEnd => 14,
            Refusal::Padded => 15,
            Refusal::Unreached => 16,
            Refusal::NotJoint => 17,
        }
    }
}

impl From<Refusal> for u8 {
    ghost from_gives = { λ r n. n ≡ code_of r };

    fn from(r: Refusal) -> u8 {
        r.code()
    }
}

impl fmt::Display for Refusal {
    fn fmt<W: fmt::Write>(&self, f: &mut fmt::Formatter<W>) -> fmt::Result {
        match self {
            Refusal::EndsTooSoon => write!(f, "bytes end too soon"),
            Refusal::ThirdTopBit => write!(f, "the third byte of a number has its top bit set"),
            Refusal::Header => write!(f, "a number of the header is out of range"),
            Refusal::Location => write!(f, "a number of a location is out of range"),
            Refusal::Edge => write!(f, "a number of an edge is out of range"),
            Refusal::BytesRemain => write!(f, "bytes remain at the end"),
            Refusal::UnresetWalk => write!(f, "a closed walk leaves a clock unreset"),
            Refusal::ScratchShort => write!(f, "a scratch slice is too short"),
            Refusal::OutputShort => write!(f, "the output is too short"),
            Refusal::NoEvidence => write!(f, "evidence begins with neither 1 nor 2"),
            Refusal::SheetNumber => write!(f, "a number of the sheet is out of range"),
            Refusal::SheetRule => write!(f, "the sheet breaks a rule"),
            Refusal::TrailStep => write!(f, "a step of the trail is bad"),
            Refusal::TrailEnd => write!(f, "the trail ends in no forbidden location"),
            Refusal::Padded => write!(f, "a number of the evidence is not in shortest form"),
            Refusal::Unreached => write!(f, "no run gets to the location"),
            Refusal::NotJoint => write!(f, "a closed walk has no joint reset"),
        }
    }
}

impl Error for Refusal {}
