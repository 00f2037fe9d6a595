// The four slices of scratch, which travel together.
ghost use Rattle.call.specs.Lent.{AllZero, SameLoans};

use super::clear_all;
use limits::Word;

#[derive(Drop)]
pub struct Scratch<'a> {
    pub first: &'a mut [Word],
    pub second: &'a mut [Word],
    pub third: &'a mut [Word],
    pub fourth: &'a mut [Word],
}

impl<'a> Scratch<'a> {
    // All at zero.
    pub fn clear(&mut self)
        ensures zero { AllZero self.old self.new }
        ensures same { SameLoans self.old self.new }
    {
        clear_all(self.first, self.second, self.third, self.fourth);
    }
}
