// Numbers of one to three groups of seven bits, lowest first: read and written.
#![tactic(auto)]

ghost use Rattle.std.specs.Prelude.{◌≡◌, ◌+◌, ◌<◌, ◌≤◌, ◌^◌, length};
ghost use Rattle.std.proofs.lemmas.List.Edits.{sets};
ghost use Rattle.number.specs.Number.{numbered, number_refusal, is_refused, read_number, spell};
ghost use Rattle.number.specs.Shortest.{told, read_spelled};

use limits::refusal::Refusal;

// What reading a number finds: its value and the offset after it, or the refusal.
// No Result: at each number a `let .. else` shows the way out by its refusal.
#[derive(Clone, Copy, Debug, PartialEq, Eq)]
pub enum Number {
    Value(u32, usize),
    Refused(Refusal),
}

// The same, and whether the form was shortest: three cases, so no Result.
#[derive(Clone, Copy, Debug, PartialEq, Eq)]
pub enum Spelled {
    Shortest(u32, usize),
    Padded(u32, usize),
    Refused(Refusal),
}

impl Number {
    // The refusal, where there is no value.
    pub fn refusal(self) -> Refusal
        requires { is_refused self }
        ensures { self ≡ Number.Refused result }
    {
        match self {
            Number::Value(_, _) => unreachable!(),
            Number::Refused(r) => r,
        }
    }
}

// The number of a refusal, 0 where there is a value.
pub fn refusal_of(n: Number) -> u8
    ensures { result ≡ number_refusal (numbered n) }
{
    match n {
        Number::Value(_, _) => 0,
        Number::Refused(r) => r.code(),
    }
}

// The number at an offset.
#[tactic(auto, unfolding(crate::specs::Number::read_number))]
pub fn read(bytes: &[u8], at: usize) -> Number
    ensures { numbered result ≡ read_number bytes.now at }
{
    let Some(&first) = bytes.get(at) else {
        return Number::Refused(Refusal::EndsTooSoon);
    };
    let first = u32::from(first);
    let at2 = at + 1;
    if first < 128 {
        return Number::Value(first, at2);
    }
    let Some(&second) = bytes.get(at2) else {
        return Number::Refused(Refusal::EndsTooSoon);
    };
    let second = u32::from(second);
    let at3 = at2 + 1;
    if second < 128 {
        return Number::Value(first % 128 + 128 * second, at3);
    }
    let Some(&third) = bytes.get(at3) else {
        return Number::Refused(Refusal::EndsTooSoon);
    };
    let third = u32::from(third);
    if third < 128 {
        return Number::Value(first % 128 + 128 * (second % 128) + 16384 * third, at3 + 1);
    }
    Number::Refused(Refusal::ThirdTopBit)
}

// The number of bytes of a number's shortest form.
#[tactic(auto, unfolding(crate::specs::Number::spell))]
pub fn shortest_length(v: u32) -> usize
    ensures { result ≡ length (spell v) }
{
    if v < 128 {
        return 1;
    }
    if v < 16384 {
        return 2;
    }
    3
}

// The number at an offset, told by its form.
#[tactic(auto, using(crate::proofs::Sequence::value_within, crate::proofs::Shortest::told_shortest), unfolding(crate::specs::Shortest::read_spelled))]
pub fn read_spelled(bytes: &[u8], at: usize) -> Spelled
    ensures { told result ≡ read_spelled bytes.now at }
{
    match read(bytes, at) {
        Number::Value(v, next) => {
            if next - at == shortest_length(v) {
                return Spelled::Shortest(v, next);
            }
            Spelled::Padded(v, next)
        }
        Number::Refused(r) => Spelled::Refused(r),
    }
}

// Stores the shortest form of a number at an offset, and gives the offset after it.
#[tactic(auto, unfolding(crate::specs::Number::spell))]
pub fn write(out: &mut [u8], at: usize, v: u32) -> usize
    requires v_bound { v < 2 ^ 21 }
    requires v_in_bounds { at + length (spell v) ≤ length out.old }
    ensures { (result ≡ at + length (spell v)) × (out.new ≡ sets out.old at (spell v)) }
{
    if 16384 <= v {
        out[at] = (v % 128 + 128) as u8;
        out[at + 1] = (v / 128 % 128 + 128) as u8;
        out[at + 2] = (v / 16384) as u8;
        return at + 3;
    }
    if 128 <= v {
        out[at] = (v % 128 + 128) as u8;
        out[at + 1] = (v / 128) as u8;
        return at + 2;
    }
    out[at] = v as u8;
    at + 1
}
