// Lent memory at zero.

ghost use Rattle.std.specs.Prelude.{◌≡◌, length, replicate};

use super::Word;

pub fn clear(a: &mut [Word])
    ensures { a.new ≡ replicate (length a.old) 0 }
{
    a.fill(0);
}

pub fn clear_bytes(a: &mut [u8])
    ensures { a.new ≡ replicate (length a.old) 0 }
{
    a.fill(0);
}
