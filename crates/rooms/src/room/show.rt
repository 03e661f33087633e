ghost use Rattle.std.specs.Prelude.{◌≡◌, length};
ghost use Rattle.letters.specs.Names.{name_of};
ghost use Rattle.letters.specs.Refusals.{as_answer};
ghost use Rattle.seats.specs.Outcomes.{show_answer, show_holds, show_logs, show_outcome, show_room};
ghost use Rattle.rooms.specs.Calls.{ShowsReady};
ghost use Rattle.rooms.specs.States.{state};

use crate::room::Room;
use crate::terms::Terms;
use letters::body::Body;
use letters::letter::Letter;
use letters::letter_id::LetterId;
use letters::refusal::Refusal;
use seats::finding::first_ready;
use seats::parts::{close_up, put};

impl Room {
    // Moves the first ready letter of the seat's hold, in order of arrival, to the foot of its log, and answers its name.
    // Refused with 5, 8, 15.
    pub fn show<B: Body>(
        &mut self,
        logs: &mut [Letter<B>],
        holds: &mut [Letter<B>],
        seat: u8,
    ) -> Result<LetterId, Refusal>
        ensures answer { as_answer name_of result ≡ show_answer (show_outcome (state self.old) (length logs.old) holds.old seat) }
        ensures ready { ShowsReady (state self.old) holds.old seat (as_answer name_of result) }
        ensures room { state self.new ≡ show_room (state self.old) (show_outcome (state self.old) (length logs.old) holds.old seat) seat }
        ensures logs { logs.new ≡ show_logs (state self.old) (show_outcome (state self.old) (length logs.old) holds.old seat) seat logs.old }
        ensures holds { holds.new ≡ show_holds (state self.old) (show_outcome (state self.old) (length logs.old) holds.old seat) seat holds.old }
    {
        self.check_tables_and_seat(logs.len(), holds.len(), seat)?;
        let mut viewer = self.seats[seat as usize];
        let hold = self.hold_part(holds, seat, &viewer);
        let Terms { count, quota, .. } = self.terms;
        let Some((at, letter)) = first_ready(hold, count, quota, seat, &viewer.clock) else {
            return Err(Refusal::NoneReady);
        };
        let behind = viewer.held as usize - at - 1;
        put(logs, self.foot(seat, &viewer), *letter);
        viewer.set_clock(letter.poster(), letter.number());
        viewer.release();
        let id = letter.id();
        close_up(holds, self.start(seat) + at, behind);
        self.store_seat(seat, viewer);
        Ok(id)
    }
}
