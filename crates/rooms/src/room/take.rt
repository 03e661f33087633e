ghost use Rattle.std.specs.Prelude.{◌≡◌, ◌<◌};
ghost use Rattle.std.specs.Result.{OnErr};
ghost use Rattle.letters.specs.Letters.{letter_name};
ghost use Rattle.letters.specs.Refusals.{as_answer};
ghost use Rattle.carriers.specs.Meaning.{draw_answer};
ghost use Rattle.seats.specs.Outcomes.{kind_of_take, take_as_answer, take_holds, take_room};
ghost use Rattle.rooms.specs.Calls.{Draws};
ghost use Rattle.rooms.specs.States.{state};
ghost use Rattle.rooms.specs.WithCarrier.{TakeMade, TakeRests};

use crate::room::Room;
use carriers::carrier::Carrier;
use letters::body::Body;
use letters::letter::Letter;
use letters::refusal::Refusal;
use seats::finding::find_named;
use seats::parts::put;
use seats::take_outcome::TakeOutcome;

// Takes a letter off the carrier: a spare letter's parts are lent, and filled with those of the letter.
fn draw_letter<B: Body, C: Carrier<Body = B>>(
    carrier: &mut C,
    seat: u8,
    place: u32,
    spare: Letter<B>,
) -> Result<Letter<B>, Refusal>
    ensures answer { as_answer (λ m. tt) result ≡ draw_answer (C.Carrier.meaning carrier.old) seat place }
    ensures leaves { Draws result (C.Carrier.meaning carrier.old) seat place (C.Carrier.meaning carrier.new) }
    ensures rests { OnErr result (C.Carrier.rests carrier.old carrier.new) }
{
    let mut parts = spare.parts();
    carrier.draw(seat, place, &mut parts)?;
    Ok(Letter::make(parts))
}

impl Room {
    // Draws a letter for the seat and keeps it at the end of the seat's hold, unless it is stray or a repeat.
    // Refused with 5, 6, 8, 14.
    pub fn take<B: Body, C: Carrier<Body = B>>(
        &mut self,
        logs: &[Letter<B>],
        holds: &mut [Letter<B>],
        carrier: &mut C,
        seat: u8,
        place: u32,
    ) -> Result<TakeOutcome, Refusal>
        ensures take { TakeMade C.Carrier seat place self.old logs.now holds.old carrier.old (as_answer take_as_answer result) self.new holds.new carrier.new }
        ensures rests { TakeRests C.Carrier seat place self.old logs.now holds.old carrier.old carrier.new }
    {
        self.check_carrier(logs.len(), holds.len(), carrier.seats())?;
        let spare = holds[0];
        let letter = draw_letter(carrier, seat, place, spare)?;
        Ok(self.hold_or_discard(holds, seat, &letter))
    }

    // Keeps a letter that is drawn for a seat, or throws it away: where it cannot be one for this seat or the hold has no
    // place for it, and where the seat has shown it or holds it.
    fn hold_or_discard<B: Body>(
        &mut self,
        holds: &mut [Letter<B>],
        seat: u8,
        letter: &Letter<B>,
    ) -> TakeOutcome
        requires { seat < self.old.terms.count }
        ensures answer { take_as_answer result ≡ (kind_of_take (state self.old) holds.old seat letter.now, letter_name letter.now) }
        ensures room { state self.new ≡ take_room (state self.old) (kind_of_take (state self.old) holds.old seat letter.now) seat }
        ensures hold { holds.new ≡ take_holds (state self.old) (kind_of_take (state self.old) holds.old seat letter.now) seat letter.now holds.old }
    {
        let mut taker = self.seats[seat as usize];
        let id = letter.id();
        let (poster, number) = (id.poster(), id.number());
        if poster >= self.terms.count
            || poster == seat
            || number > self.terms.quota
            || taker.held >= self.terms.places()
        {
            return TakeOutcome::Stray(id);
        }
        if number <= taker.clock.entry(poster)
            || find_named(self.hold_part(holds, seat, &taker), poster, number).is_some()
        {
            return TakeOutcome::Repeat(id);
        }
        put(holds, self.start(seat) + taker.held as usize, *letter);
        let _ = taker.hold(self.terms.places());
        self.store_seat(seat, taker);
        TakeOutcome::Held(id)
    }
}
