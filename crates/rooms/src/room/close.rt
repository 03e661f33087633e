ghost use Rattle.std.specs.Prelude.{◌≡◌, Ok};
ghost use Rattle.letters.specs.Refusals.{as_answer};
ghost use Rattle.rooms.specs.RoomReading.{all_clear, close_check, state_of_closed};
ghost use Rattle.rooms.specs.States.{state};

use crate::closed::ClosedRoom;
use crate::room::Room;
use causality::docket::DocketState;
use letters::refusal::Refusal;

impl Room {
    // Whether the room may close: 16 where a docket is out or parked.
    pub fn check_close(&self) -> Result<(), Refusal>
        ensures { as_answer (λ u. u) result ≡ close_check (state self.now) }
    {
        if !self.is_clear() {
            return Err(Refusal::DocketsOpen);
        }
        Ok(())
    }

    // Ends the room, which is only read from then on.
    pub fn close(self) -> ClosedRoom
        requires { close_check (state self) ≡ Ok tt }
        ensures { state_of_closed result ≡ state self }
    {
        ClosedRoom { room: self }
    }

    // Whether every docket is clear.
    fn is_clear(&self) -> bool
        ensures { result ≡ all_clear (state self.now) }
    {
        let seats = &self.seats[..self.terms.count as usize];
        seats.iter().all(|seat| seat.docket == DocketState::Clear)
    }
}
