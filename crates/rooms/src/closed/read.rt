ghost use Rattle.std.specs.Prelude.{◌≡◌, length};
ghost use Rattle.letters.specs.Refusals.{as_answer};
ghost use Rattle.carriers.specs.Meaning.{UnchangedIfRefused};
ghost use Rattle.sheets.specs.Sheets.{acceptance};
ghost use Rattle.lives.specs.Drawing.{sheet_outcome};
ghost use Rattle.lives.specs.Guarantees.{AlwaysGuaranteed};
ghost use Rattle.rooms.specs.RoomReading.{SheetLeft, log_answer, pages_answer, state_of_closed};

use crate::closed::ClosedRoom;
use letters::body::Body;
use letters::letter::Letter;
use letters::refusal::Refusal;
use sheets::sheet::Sheet;

// Each makes the room's own call: a closed room is a type of its own, with these calls and no others.
impl ClosedRoom {
    // The letters of a seat's log, from the top: a part of the log table. Refused with 5, 8.
    pub fn log<'t, B: Body>(
        &self,
        logs: &'t [Letter<B>],
        holds: &[Letter<B>],
        seat: u8,
    ) -> Result<&'t [Letter<B>], Refusal>
        ensures { as_answer (λ log. log.now) result ≡ log_answer (state_of_closed self.now) logs.now (length holds.now) seat }
    {
        self.room.log(logs, holds, seat)
    }

    // How many pages a seat's log takes. Refused with 8.
    pub fn pages(&self, seat: u8) -> Result<u32, Refusal>
        ensures { as_answer (λ n. n) result ≡ pages_answer (state_of_closed self.now) seat }
    {
        self.room.pages(seat)
    }

    // Clears the sheet and enters the letters of a seat's log from the top. Refused with 5, 8, 17, as in an open room.
    pub fn draw_up<K: Sheet>(
        &self,
        logs: &[Letter<K::Body>],
        holds: &[Letter<K::Body>],
        seat: u8,
        sheet: &mut K,
    ) -> Result<(), Refusal>
        ensures answer { as_answer (λ u. u) result ≡ acceptance (sheet_outcome K.Sheet.kind (state_of_closed self.now) logs.now (length holds.now) seat) }
        ensures leaves { SheetLeft K.Sheet (state_of_closed self.now) logs.now holds.now seat sheet.old sheet.new }
        ensures untouched { UnchangedIfRefused result sheet.old sheet.new }
        ensures guarantees { AlwaysGuaranteed K.Sheet.kind }
    {
        self.room.draw_up(logs, holds, seat, sheet)
    }
}
