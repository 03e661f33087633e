// The table of seats, and where each seat's letters lie in the letter tables.
ghost use Rattle.std.specs.Prelude.{◌≡◌, ◌+◌, ◌<◌, ◌≤◌, replicate, take, drop, nat_lt, Ok};
ghost use Rattle.letters.specs.Refusals.{as_answer, unless};
ghost use Rattle.seats.specs.Invariants.{SeatInvariant};
ghost use Rattle.seats.specs.Outcomes.{seat_check};
ghost use Rattle.seats.specs.Rooms.{start, with_seat};
ghost use Rattle.seats.specs.Seats.{fresh, log_length};
ghost use Rattle.rooms.specs.States.{state};

use crate::room::Room;
use crate::terms::Terms;
use causality::docket::DocketState;
use letters::body::Body;
use letters::letter::Letter;
use letters::refusal::Refusal;
use letters::stamp::Stamp;
use seats::parts::part;
use seats::seat::Seat;

impl Room {
    // A room in which nothing has happened.
    pub(crate) fn fresh(terms: Terms) -> Room
        requires { 1 ≤ terms.count }
        ensures { state result ≡ record { number = terms.number; names = terms.names; count = terms.count; quota = terms.quota; seats = replicate 16 fresh } }
    {
        let nothing = Seat {
            clock: Stamp { entries: [0; 16] },
            held: 0,
            docket: DocketState::Clear,
        };
        Room {
            terms,
            seats: [nothing; 16],
        }
    }

    // Writes the table of seats back with one seat changed.
    pub(crate) fn store_seat(&mut self, s: u8, seat: Seat)
        requires { (SeatInvariant self.old.terms.count self.old.terms.quota seat) × (s < 16) }
        ensures { state self.new ≡ with_seat (state self.old) s seat }
    {
        let mut seats = self.seats;
        seats[s as usize] = seat;
        self.seats = seats;
    }

    // Where a seat's places begin in either letter table.
    pub(crate) fn start(&self, s: u8) -> usize
        ensures { result ≡ start (state self.now) s }
    {
        s as usize * self.terms.places() as usize
    }

    // The place after the last letter of the log of seat s, which is copied out.
    pub(crate) fn foot(&self, s: u8, seat: &Seat) -> usize
        ensures { result ≡ start (state self.now) s + log_length seat.now }
    {
        self.start(s) + seat.log_len() as usize
    }

    // The letters of its log.
    pub(crate) fn log_part<'t, B: Body>(
        &self,
        logs: &'t [Letter<B>],
        s: u8,
        seat: &Seat,
    ) -> &'t [Letter<B>]
        ensures { result.now ≡ take (log_length seat.now) (drop (start (state self.now) s) logs.now) }
    {
        part(logs, self.start(s), seat.log_len() as usize)
    }

    // The letters of its hold, in order of arrival.
    pub(crate) fn hold_part<'t, B: Body>(
        &self,
        holds: &'t [Letter<B>],
        s: u8,
        seat: &Seat,
    ) -> &'t [Letter<B>]
        ensures { result.now ≡ take seat.now.held (drop (start (state self.now) s) holds.now) }
    {
        part(holds, self.start(s), seat.held as usize)
    }

    // Whether the room has this seat: 8 where it has not.
    pub(crate) fn check_seat(&self, s: u8) -> Result<(), Refusal>
        ensures { as_answer (λ u. u) result ≡ unless (nat_lt s self.now.terms.count) 8 (Ok tt) }
    {
        if s >= self.terms.count {
            return Err(Refusal::UnknownSeat);
        }
        Ok(())
    }

    // Whether the tables suffice and the room has this seat: 5, 8.
    pub(crate) fn check_tables_and_seat(
        &self,
        logs: usize,
        holds: usize,
        s: u8,
    ) -> Result<(), Refusal>
        ensures { as_answer (λ u. u) result ≡ seat_check (state self.now) logs holds s }
    {
        if !self.terms.suffice(logs, holds) {
            return Err(Refusal::TooShort);
        }
        self.check_seat(s)
    }
}
