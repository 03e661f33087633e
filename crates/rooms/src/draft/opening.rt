// Drafting a room, enrolling its boxes and opening it.
ghost use Rattle.std.specs.Prelude.{◌≡◌, [], length, take, Ok};
ghost use Rattle.letters.specs.Refusals.{as_answer};
ghost use Rattle.lives.specs.Reachability.{Reachable, configuration_of};
ghost use Rattle.rooms.specs.Drafts.{draft_check, draft_with_name, enrol_answer, enrol_check, has_number, no_letter_waits, open_check, opening_state, state_of_draft, state_of_new_draft};
ghost use Rattle.rooms.specs.States.{state};

use crate::draft::Draft;
use crate::room::Room;
use crate::terms::Terms;
use carriers::carrier::Carrier;
use letters::body::Body;
use letters::letter::Letter;
use letters::refusal::Refusal;

impl Draft {
    // Whether a room may have this quota: 1 where it is 0 or above 256.
    pub fn check(quota: u16) -> Result<(), Refusal>
        ensures { as_answer (λ u. u) result ≡ draft_check quota }
    {
        if quota == 0 || quota > 256 {
            return Err(Refusal::BadQuota);
        }
        Ok(())
    }

    // A draft with nobody enrolled, of a quota that was checked.
    pub fn new(number: u32, quota: u16) -> Draft
        requires { draft_check quota ≡ Ok tt }
        ensures { state_of_draft result ≡ state_of_new_draft number quota }
    {
        Draft {
            terms: Terms {
                number,
                quota,
                names: [0; 16],
                count: 0,
            },
        }
    }

    // Gives the next seat a name, and answers the seat. Refused with 2, 3.
    pub fn enrol(&mut self, name: u32) -> Result<u8, Refusal>
        ensures answer { as_answer (λ s. s) result ≡ enrol_answer (state_of_draft self.old) name }
        ensures draft { state_of_draft self.new ≡ draft_with_name (state_of_draft self.old) (enrol_answer (state_of_draft self.old) name) name }
    {
        self.may_enrol(name)?;
        let seat = self.terms.count;
        self.terms.names[seat as usize] = name;
        self.terms.count = seat + 1;
        Ok(seat)
    }

    // Whether the next seat may have this name.
    fn may_enrol(&self, name: u32) -> Result<(), Refusal>
        ensures { as_answer (λ u. u) result ≡ enrol_check (state_of_draft self.now) name }
    {
        if name == 0 || self.has(name) {
            return Err(Refusal::BadName);
        }
        if self.terms.count == 16 || self.terms.places() + self.terms.quota > 256 {
            return Err(Refusal::TooManySeats);
        }
        Ok(())
    }

    // Whether a name is enrolled.
    fn has(&self, name: u32) -> bool
        ensures { result ≡ has_number (take self.now.terms.count self.now.terms.names) name }
    {
        self.terms.names[..self.terms.count as usize].contains(&name)
    }

    // Whether the room may open with these letter tables and this carrier. Refused with 4, 5, 6, 7.
    pub fn check_open<B: Body, C: Carrier<Body = B>>(
        &self,
        logs: &[Letter<B>],
        holds: &[Letter<B>],
        carrier: &C,
    ) -> Result<(), Refusal>
        ensures { as_answer (λ u. u) result ≡ open_check (state_of_draft self.now) (length logs.now) (length holds.now) (C.Carrier.meaning carrier.now) }
    {
        if self.terms.count == 0 {
            return Err(Refusal::NoSeats);
        }
        if !self.terms.suffice(logs.len(), holds.len()) {
            return Err(Refusal::TooShort);
        }
        if carrier.seats() != self.terms.count {
            return Err(Refusal::WrongSeatCount);
        }
        if !is_quiet(carrier, self.terms.count) {
            return Err(Refusal::LetterWaiting);
        }
        Ok(())
    }

    // Opens the room: every clock is zero, every log and hold is empty, and every docket is clear.
    pub fn open<B: Body, C: Carrier<Body = B>>(
        self,
        logs: &[Letter<B>],
        holds: &[Letter<B>],
        carrier: &C,
    ) -> Room
        requires { open_check (state_of_draft self) (length logs.now) (length holds.now) (C.Carrier.meaning carrier.now) ≡ Ok tt }
        ensures room { state result ≡ opening_state (state_of_draft self) }
        ensures reachable { Reachable [] (configuration_of (state result) logs.now holds.now (C.Carrier.meaning carrier.now)) }
    {
        let Draft { terms } = self;
        Room::fresh(terms)
    }
}

// Whether no letter waits at any of the first seats.
fn is_quiet<C: Carrier>(carrier: &C, count: u8) -> bool
    ensures { result ≡ no_letter_waits (C.Carrier.meaning carrier.now) count }
{
    (0..count).all(|seat| carrier.waits(seat) == 0)
}
