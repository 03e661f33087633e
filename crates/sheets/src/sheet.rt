// Sheets of every kind, and how a log is drawn up on one.
ghost use Rattle.std.specs.Prelude.{◌≡◌, ℕ, ◌<◌, length};
ghost use Rattle.letters.specs.Refusals.{as_answer};
ghost use Rattle.sheets.specs.Sheets.{Converges, Kind, LawfulKind, acceptance, draw_up_outcome, enter_outcome, meaning_left};

use letters::body::Body;
use letters::letter::Letter;
use letters::refusal::Refusal;

// A kind of sheet: what results from the letters of a log when they are entered one by one.
// The law is that letters which are side by side may be entered in either order.
pub trait Sheet {
    type Body: Body;

    // How many letters can be entered.
    const PLACES: u32;

    ghost PLACES: { ℕ };

    // What a sheet can mean, apart from how it is held.
    ghost Meaning: { Type 0 };

    ghost meaning: { Self → Meaning };

    // The places, which are PLACES, the count of letters, the empty sheet, and what a letter does.
    ghost kind: { Kind Meaning Self.Body };

    // How many letters are entered.
    fn letters(&self) -> u32
        ensures { result ≡ kind.count (meaning self.now) };

    // Takes everything off.
    fn clear(&mut self)
        ensures { meaning self.new ≡ kind.empty };

    // Enters a letter; 18 where no place is free, and the sheet's meaning stays.
    fn enter(&mut self, letter: &Letter<Self::Body>) -> Result<(), Refusal>
        ensures answer { as_answer (λ u. u) result ≡ acceptance (enter_outcome kind (meaning self.old) letter.now) }
        ensures leaves { meaning self.new ≡ meaning_left (enter_outcome kind (meaning self.old) letter.now) (meaning self.old) };

    ghost sized: { kind.places ≡ PLACES };

    ghost lawful: { LawfulKind kind };
}

// Clears the sheet and enters the letters of the log from the top; 17 where the log is longer than the sheet has places.
// Two logs that hold the same letters, in whatever causal orders, give the same meaning.
pub fn draw_up<K: Sheet>(sheet: &mut K, log: &[Letter<K::Body>]) -> Result<(), Refusal>
    ensures answer { as_answer (λ u. u) result ≡ acceptance (draw_up_outcome K.Sheet.kind log.now) }
    ensures leaves { K.Sheet.meaning sheet.new ≡ meaning_left (draw_up_outcome K.Sheet.kind log.now) (K.Sheet.meaning sheet.old) }
    ensures untouched { K.Sheet.kind.places < length log.now → sheet.new ≡ sheet.old }
    ensures converges { Converges K.Sheet.kind }
{
    if log.len() > K::PLACES as usize {
        return Err(Refusal::TooFewPlaces);
    }
    sheet.clear();
    for letter in log {
        sheet.enter(letter)?;
    }
    Ok(())
}
