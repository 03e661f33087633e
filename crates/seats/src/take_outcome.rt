// What becomes of a letter that is taken.
ghost use Rattle.std.specs.Prelude.{Some};
ghost use Rattle.seats.specs.TakeTexts.{take_text};

use letters::letter_id::LetterId;
use std::fmt;

// The answer of a take, with the letter's name.
#[derive(Clone, Copy, PartialEq, Eq)]
pub enum TakeOutcome {
    // thrown away: it cannot be a letter for this seat, or the hold is full
    Stray(LetterId),
    // thrown away: the seat has it already
    Repeat(LetterId),
    // at the end of the hold
    Held(LetterId),
}

impl fmt::Display for TakeOutcome {
    ghost output = { λ taken. Some (take_text taken) };

    fn fmt<W: fmt::Write>(&self, f: &mut fmt::Formatter<W>) -> fmt::Result {
        match self {
            TakeOutcome::Stray(id) => write!(f, "stray {id}"),
            TakeOutcome::Repeat(id) => write!(f, "repeat {id}"),
            TakeOutcome::Held(id) => write!(f, "held {id}"),
        }
    }
}
