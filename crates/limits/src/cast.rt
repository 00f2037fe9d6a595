// A number of each width as an index, for callers that want no cast in place. The crates here take std's `usize::from`.

ghost use Rattle.std.specs.Prelude.{◌≡◌, ◌≤◌};
ghost use Rattle.limits.specs.Limits.{max_word};

use super::Word;

pub fn from_byte(x: u8) -> usize
    ensures { result ≡ x }
{
    usize::from(x)
}

pub fn from_word(x: Word) -> usize
    ensures { result ≡ x }
{
    usize::from(x)
}

pub fn from_short(x: u16) -> usize
    ensures { result ≡ x }
{
    usize::from(x)
}

pub fn from_long(x: u32) -> usize
    ensures { result ≡ x }
{
    x as usize
}

// A number that a `Word` holds.
pub fn to_word(x: usize) -> Word
    requires { x ≤ max_word }
    ensures { result ≡ x }
{
    x as Word
}
