// Which states have a distance, kept in flags while the slice of distances serves another search.

ghost use Rattle.std.specs.Prelude.{◌≡◌, ℕ, ◌<◌, length, get_or, ltb};
ghost use Rattle.theory.specs.Below.{bit};

use limits::Word;

pub fn keep_marks(distance: &[Word], flags: &mut [u8])
    requires { length flags.old ≡ length distance.now }
    ensures { (p : ℕ) → p < length distance.now → get_or flags.new p 0 ≡ bit (ltb 0 (get_or distance.now p 0)) }
{
    for (p, &x) in distance.iter().enumerate() {
        flags[p] = u8::from(0 < x);
    }
}

pub fn restore_marks(flags: &[u8], distance: &mut [Word])
    requires { length distance.old ≡ length flags.now }
    ensures { (p : ℕ) → p < length flags.now → get_or distance.new p 0 ≡ get_or flags.now p 0 }
{
    for (p, &flag) in flags.iter().enumerate() {
        distance[p] = Word::from(flag);
    }
}
