ghost use Rattle.std.specs.Prelude.{◌≡◌};
ghost use Rattle.letters.specs.Refusals.{as_answer};
ghost use Rattle.seats.specs.Outcomes.{carrier_check, send_letter};
ghost use Rattle.rooms.specs.States.{ComesBack, docket_as_answer, id_of, state};
ghost use Rattle.rooms.specs.WithCarrier.{SendLeaves, SendPuts, send_outcome, send_room};

use crate::docket::{Docket, Returned};
use crate::room::Room;
use carriers::carrier::Carrier;
use letters::body::Body;
use letters::letter::Letter;
use letters::refusal::Refusal;
use seats::docket_id::DocketId;
use seats::finding::find_named;
use seats::seat::DocketEvent;

impl Room {
    // Puts the docket's letter, the first such in the seat's log, on the carrier. Refused with 5, 6, 12, 19, 11.
    pub fn send<B: Body, C: Carrier<Body = B>>(
        &mut self,
        logs: &[Letter<B>],
        holds: &[Letter<B>],
        carrier: &mut C,
        docket: Docket,
    ) -> Result<(), Returned>
        ensures answer { docket_as_answer result ≡ send_outcome C.Carrier self.old logs.now holds.now carrier.old (id_of docket) }
        ensures docket { ComesBack docket result }
        ensures room { state self.new ≡ send_room C.Carrier self.old logs.now holds.now carrier.old (id_of docket) }
        ensures once { SendPuts C.Carrier self.old logs.now holds.now carrier.old (id_of docket) carrier.new }
        ensures carrier { SendLeaves C.Carrier self.old logs.now holds.now carrier.old (id_of docket) carrier.new }
    {
        match self.send_by_id(logs, holds, carrier, docket.id()) {
            Ok(()) => {
                let _ = docket.into_id();
                Ok(())
            }
            Err(refusal) => Err(Returned { docket, refusal }),
        }
    }

    // The same, by the numbers of the docket.
    pub(crate) fn send_by_id<B: Body, C: Carrier<Body = B>>(
        &mut self,
        logs: &[Letter<B>],
        holds: &[Letter<B>],
        carrier: &mut C,
        docket_id: DocketId,
    ) -> Result<(), Refusal>
        ensures answer { as_answer (λ u. u) result ≡ send_outcome C.Carrier self.old logs.now holds.now carrier.old docket_id }
        ensures room { state self.new ≡ send_room C.Carrier self.old logs.now holds.now carrier.old docket_id }
        ensures once { SendPuts C.Carrier self.old logs.now holds.now carrier.old docket_id carrier.new }
        ensures carrier { SendLeaves C.Carrier self.old logs.now holds.now carrier.old docket_id carrier.new }
    {
        self.put_letter(logs, holds, carrier, docket_id)?;
        self.record_docket_event(docket_id.seat, DocketEvent::Send);
        Ok(())
    }

    // Puts the letter of the docket of these numbers on the carrier.
    fn put_letter<B: Body, C: Carrier<Body = B>>(
        &self,
        logs: &[Letter<B>],
        holds: &[Letter<B>],
        carrier: &mut C,
        docket_id: DocketId,
    ) -> Result<(), Refusal>
        ensures answer { as_answer (λ u. u) result ≡ send_outcome C.Carrier self.now logs.now holds.now carrier.old docket_id }
        ensures once { SendPuts C.Carrier self.now logs.now holds.now carrier.old docket_id carrier.new }
        ensures carrier { SendLeaves C.Carrier self.now logs.now holds.now carrier.old docket_id carrier.new }
    {
        let letter = self.letter_to_send(logs, holds.len(), carrier.seats(), docket_id)?;
        carrier.put(letter)
    }

    // The letter of the docket of these numbers.
    fn letter_to_send<'t, B: Body>(
        &self,
        logs: &'t [Letter<B>],
        holds: usize,
        seats: u8,
        docket_id: DocketId,
    ) -> Result<&'t Letter<B>, Refusal>
        ensures { as_answer (λ m. m.now) result ≡ send_letter (state self.now) logs.now holds seats docket_id }
    {
        self.check_carrier(logs.len(), holds, seats)?;
        if !self.has_docket_out(docket_id) {
            return Err(Refusal::WrongDocket);
        }
        let DocketId { seat, number, .. } = docket_id;
        let log = self.log_part(logs, seat, &self.seats[seat as usize]);
        let Some((_, letter)) = find_named(log, seat, number) else {
            return Err(Refusal::LetterMissing);
        };
        Ok(letter)
    }

    // Whether the tables suffice and the carrier serves as many seats as the room has.
    pub(crate) fn check_carrier(&self, logs: usize, holds: usize, seats: u8) -> Result<(), Refusal>
        ensures { as_answer (λ u. u) result ≡ carrier_check (state self.now) logs holds seats }
    {
        if !self.terms.suffice(logs, holds) {
            return Err(Refusal::TooShort);
        }
        if seats != self.terms.count {
            return Err(Refusal::WrongSeatCount);
        }
        Ok(())
    }
}
