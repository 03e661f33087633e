ghost use Rattle.std.specs.Prelude.{◌≡◌, length};
ghost use Rattle.letters.specs.Refusals.{as_answer};
ghost use Rattle.rooms.specs.RoomReading.{log_answer, pages_answer};
ghost use Rattle.rooms.specs.States.{state};

use crate::room::Room;
use letters::body::Body;
use letters::letter::Letter;
use letters::refusal::Refusal;
use sheets::pages::pages;

impl Room {
    // The letters of a seat's log, from the top: a part of the log table. Refused with 5, 8.
    pub fn log<'t, B: Body>(
        &self,
        logs: &'t [Letter<B>],
        holds: &[Letter<B>],
        seat: u8,
    ) -> Result<&'t [Letter<B>], Refusal>
        ensures { as_answer (λ log. log.now) result ≡ log_answer (state self.now) logs.now (length holds.now) seat }
    {
        self.check_tables_and_seat(logs.len(), holds.len(), seat)?;
        Ok(self.log_part(logs, seat, &self.seats[seat as usize]))
    }

    // How many pages a seat's log takes. Refused with 8.
    pub fn pages(&self, seat: u8) -> Result<u32, Refusal>
        ensures { as_answer (λ n. n) result ≡ pages_answer (state self.now) seat }
    {
        self.check_seat(seat)?;
        Ok(pages(self.seats[seat as usize].log_len()))
    }
}
