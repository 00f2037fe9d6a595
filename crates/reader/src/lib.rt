// 01: "A reader over the lent evidence serves outside callers, giving each next number, or 1 or 2 and then staying at that number's first byte."
// 02 (b): with each number it tells "whether the form was shortest, and never gives 15 itself".
#![tactic(auto)]

ghost use Rattle.std.specs.Prelude.{◌≡◌};
ghost use Rattle.number.specs.Shortest.{told};
ghost use Rattle.reader.specs.Reader.{after_number, after_found, next_number, number_answer, next_answer, advanced};

use number::Spelled;

// The evidence, and where the next number begins.
#[derive(Clone, Copy)]
pub struct Reader<'a> {
    pub bytes: &'a [u8],
    pub at: usize,
}

impl<'a> Reader<'a> {
    // A reader at the first number.
    pub fn new(bytes: &'a [u8]) -> Reader<'a>
        ensures { (result.bytes ≡ bytes.entry) × (result.at ≡ 0) }
    {
        Reader { bytes, at: 0 }
    }

    // The next number, told by its form, or its refusal: 01's answer by `number_answer`, with the offset after a number in the enum itself.
    #[tactic(auto, using(crate::proofs::Laws::after_told))]
    pub fn next(&mut self) -> Spelled
        ensures { (number_answer (told result) ≡ next_answer self.old) × (told result ≡ next_number self.old) × (self.new ≡ advanced self.old) }
    {
        let found = number::read_spelled(self.bytes, self.at);
        self.at = end_of(found, self.at);
        found
    }
}

// The offset after what was found at an offset, or that offset where it is refused.
fn end_of(found: Spelled, at: usize) -> usize
    ensures { result ≡ after_found (told found) at }
{
    match found {
        Spelled::Shortest(_, next) => next,
        Spelled::Padded(_, next) => next,
        Spelled::Refused(_) => at,
    }
}

// The offset after the number at an offset, or that offset where the number is refused.
#[tactic(auto, using(crate::proofs::Laws::after_told))]
pub fn next_offset(bytes: &[u8], at: usize) -> usize
    ensures { result ≡ after_number bytes.now at }
{
    end_of(number::read_spelled(bytes, at), at)
}
