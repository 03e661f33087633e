// Dockets: parking one, and collecting it again.
ghost use Rattle.std.specs.Prelude.{◌≡◌, ◌<◌, IfOk, true};
ghost use Rattle.letters.specs.Refusals.{as_answer};
ghost use Rattle.seats.specs.declared.seat.DocketEvent.TheVariants.{Park, Collect};
ghost use Rattle.seats.specs.Outcomes.{collect_answer, docket_room, good_docket, park_answer};
ghost use Rattle.seats.specs.Rooms.{seat_at, with_seat};
ghost use Rattle.seats.specs.Seats.{clock_at, with_docket_event};
ghost use Rattle.rooms.specs.Handing.{out_at};
ghost use Rattle.rooms.specs.States.{ComesBack, docket_as_answer, id_of, state};

use crate::docket::{Docket, Returned};
use crate::room::Room;
use letters::refusal::Refusal;
use seats::docket_id::DocketId;
use seats::seat::{DocketEvent, Seat};

impl Room {
    // Leaves the docket's letter for later. Refused with 12.
    pub fn park(&mut self, docket: Docket) -> Result<(), Returned>
        ensures answer { docket_as_answer result ≡ park_answer (state self.old) (id_of docket) }
        ensures docket { ComesBack docket result }
        ensures room { state self.new ≡ docket_room (state self.old) docket.seat Park (park_answer (state self.old) (id_of docket)) }
    {
        match self.park_by_id(docket.id()) {
            Ok(()) => {
                let _ = docket.into_id();
                Ok(())
            }
            Err(refusal) => Err(Returned { docket, refusal }),
        }
    }

    // The same, by the numbers of the docket.
    pub(crate) fn park_by_id(&mut self, docket_id: DocketId) -> Result<(), Refusal>
        ensures answer { as_answer (λ u. u) result ≡ park_answer (state self.old) docket_id }
        ensures room { state self.new ≡ docket_room (state self.old) docket_id.seat Park (park_answer (state self.old) docket_id) }
    {
        if !self.has_docket_out(docket_id) {
            return Err(Refusal::WrongDocket);
        }
        self.record_docket_event(docket_id.seat, DocketEvent::Park);
        Ok(())
    }

    // Answers the parked docket of a seat again. Refused with 8, 13.
    pub fn collect(&mut self, seat: u8) -> Result<Docket, Refusal>
        ensures answer { as_answer id_of result ≡ collect_answer (state self.old) seat }
        ensures room { state self.new ≡ docket_room (state self.old) seat Collect (collect_answer (state self.old) seat) }
        ensures good { IfOk result (λ docket. good_docket (state self.new) (id_of docket) ≡ true) }
    {
        Ok(Docket::of(self.collect_for_id(seat)?))
    }

    // The same, by the numbers of the docket: nobody has the docket yet.
    pub(crate) fn collect_for_id(&mut self, seat: u8) -> Result<DocketId, Refusal>
        ensures answer { as_answer (λ docket_id. docket_id) result ≡ collect_answer (state self.old) seat }
        ensures room { state self.new ≡ docket_room (state self.old) seat Collect (collect_answer (state self.old) seat) }
    {
        self.check_seat(seat)?;
        let mut poster = self.seats[seat as usize];
        if !poster.move_docket(DocketEvent::Collect) {
            return Err(Refusal::NotParked);
        }
        self.store_seat(seat, poster);
        Ok(self.newest_docket(seat, &poster))
    }

    // What the docket of the newest letter says that seat s posted, which is copied out.
    pub(crate) fn newest_docket(&self, s: u8, poster: &Seat) -> DocketId
        ensures { result ≡ record { room = self.now.terms.number; seat = s; number = clock_at poster.now s } }
    {
        DocketId {
            room: self.terms.number,
            seat: s,
            number: poster.clock.entry(s),
        }
    }

    // The numbers of a seat's docket, where it is out.
    pub(crate) fn out(&self, seat: u8) -> Option<DocketId>
        ensures { result ≡ out_at (state self.now) seat }
    {
        if seat >= self.terms.count {
            return None;
        }
        let mut poster = self.seats[seat as usize];
        if !poster.move_docket(DocketEvent::Send) {
            return None;
        }
        Some(self.newest_docket(seat, &poster))
    }

    // Whether the docket of these numbers is out at this room, to be sent or parked.
    pub(crate) fn has_docket_out(&self, docket_id: DocketId) -> bool
        ensures { result ≡ good_docket (state self.now) docket_id }
    {
        self.out(docket_id.seat) == Some(docket_id)
    }

    // Writes down at a seat what happens to its docket.
    pub(crate) fn record_docket_event(&mut self, seat: u8, event: DocketEvent)
        requires { seat < self.old.terms.count }
        ensures { state self.new ≡ with_seat (state self.old) seat (with_docket_event (seat_at (state self.old) seat) event) }
    {
        let mut changed = self.seats[seat as usize];
        let _ = changed.move_docket(event);
        self.store_seat(seat, changed);
    }
}
