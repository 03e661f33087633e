// What a carrier is.
ghost use Rattle.std.specs.Prelude.{◌≡◌, OnOk};
ghost use Rattle.std.specs.Result.{OnErr};
ghost use Rattle.letters.specs.declared.letter.Letter.{Letter};
ghost use Rattle.letters.specs.Letters.{parts_of};
ghost use Rattle.letters.specs.Refusals.{as_answer};
ghost use Rattle.carriers.specs.Meaning.{DrawLeaves, LawfulMeaning, Meaning, PutLeaves, draw_answer, put_answer, waits_at};

use letters::body::Body;
use letters::letter::Letter;
use letters::parts::Parts;
use letters::refusal::Refusal;

// What takes letters from seat to seat: a network that may deliver late, out of order or twice, and loses nothing.
pub trait Carrier {
    type Body: Body;

    ghost meaning: { Self → Meaning (Letter Self.Body) };

    ghost lawful: { (c : Self) → LawfulMeaning (meaning c) };

    // What one put of a letter does to the carrier itself. Two puts of a letter, and one that brings it twice, can leave the same
    // meaning; each make of carrier defines here what one put of its own does.
    ghost puts: { Self → Letter Self.Body → Self → Type 0 };

    // What a refused put or draw leaves of the carrier itself, with memory that is lent to it. Each make of carrier defines here
    // how much of it stays: at least its meaning.
    ghost rests: { Self → Self → Type 0 };

    ghost still: { (c after : Self) → rests c after → meaning after ≡ meaning c };

    // How many seats it serves; this never changes.
    fn seats(&self) -> u8
        ensures { result ≡ (meaning self.now).seats };

    // How many letters wait for a seat; a list longer than 2^32 - 1 counts as that many.
    fn waits(&self, seat: u8) -> u32
        ensures { result ≡ waits_at (meaning self.now) seat };

    // Whether a letter of this poster has place.
    fn fits(&self, poster: u8) -> bool
        ensures { result ≡ (meaning self.now).fits poster };

    // Takes a letter for every seat but its poster; 8 where the poster is no seat here, 11 where it does not fit.
    fn put(&mut self, letter: &Letter<Self::Body>) -> Result<(), Refusal>
        ensures answer { as_answer (λ u. u) result ≡ put_answer (meaning self.old) letter.now.poster }
        ensures leaves { PutLeaves result (meaning self.old) letter.now.poster letter.now (meaning self.new) }
        ensures once { OnOk result (puts self.old letter.now self.new) }
        ensures rests { OnErr result (rests self.old self.new) };

    // Takes out the letter that waits at a place and fills the lent parts with its own; 8 where there is no such seat,
    // 14 where the place is past those that wait.
    fn draw(&mut self, seat: u8, place: u32, parts: &mut Parts<Self::Body>) -> Result<(), Refusal>
        ensures answer { as_answer (λ u. u) result ≡ draw_answer (meaning self.old) seat place }
        ensures leaves { DrawLeaves parts_of result (meaning self.old) seat place (meaning self.new) parts.old parts.new }
        ensures rests { OnErr result (rests self.old self.new) };
}
