// Drawing up a log on a sheet.
ghost use Rattle.std.specs.Prelude.{◌≡◌, length};
ghost use Rattle.letters.specs.Refusals.{as_answer};
ghost use Rattle.carriers.specs.Meaning.{UnchangedIfRefused};
ghost use Rattle.sheets.specs.Sheets.{acceptance};
ghost use Rattle.lives.specs.Drawing.{sheet_outcome};
ghost use Rattle.lives.specs.Guarantees.{AlwaysGuaranteed};
ghost use Rattle.rooms.specs.RoomReading.{SheetLeft};
ghost use Rattle.rooms.specs.States.{state};

use crate::room::Room;
use letters::letter::Letter;
use letters::refusal::Refusal;
use sheets::sheet::{Sheet, draw_up};

impl Room {
    // Clears the sheet and enters the letters of a seat's log from the top. Refused with 5, 8, 17: the sheet needs places for
    // every letter that a log of the room may come to have, however short the log is. On this kind of sheet, as on every
    // kind that keeps the law, logs of a room that hold the same letters result in the same sheet.
    pub fn draw_up<K: Sheet>(
        &self,
        logs: &[Letter<K::Body>],
        holds: &[Letter<K::Body>],
        seat: u8,
        sheet: &mut K,
    ) -> Result<(), Refusal>
        ensures answer { as_answer (λ u. u) result ≡ acceptance (sheet_outcome K.Sheet.kind (state self.now) logs.now (length holds.now) seat) }
        ensures leaves { SheetLeft K.Sheet (state self.now) logs.now holds.now seat sheet.old sheet.new }
        ensures untouched { UnchangedIfRefused result sheet.old sheet.new }
        ensures guarantees { AlwaysGuaranteed K.Sheet.kind }
    {
        self.check_tables_and_seat(logs.len(), holds.len(), seat)?;
        if K::PLACES < self.terms.places() as u32 {
            return Err(Refusal::TooFewPlaces);
        }
        draw_up(sheet, self.log_part(logs, seat, &self.seats[seat as usize]))
    }
}
