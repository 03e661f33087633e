// What a letter is made of.
ghost use Rattle.std.specs.Prelude.{◌≡◌};
ghost use Rattle.letters.specs.Letters.{letter_check};
ghost use Rattle.letters.specs.Refusals.{as_answer};

use crate::refusal::Refusal;
use crate::stamp::Stamp;

// The parts of a letter, of any values: what a letter is made of, and what a caller lends to be filled with those of one.
#[derive(Clone, Copy)]
pub struct Parts<B> {
    pub stamp: Stamp,
    pub poster: u8,
    pub body: B,
}

impl<B: Copy> Parts<B> {
    // Whether a letter can have these parts; 20 where the poster is no seat or its entry is 0.
    pub fn check(&self) -> Result<(), Refusal>
        ensures { as_answer (λ u. u) result ≡ letter_check self.now }
    {
        if self.poster >= 16 || self.stamp.entries[self.poster as usize] == 0 {
            return Err(Refusal::BadRecord);
        }
        Ok(())
    }
}
