// The end of a list of steps.
ghost use Rattle.std.specs.Prelude.{◌≡◌, ℕ};
ghost use Rattle.seats.specs.Rooms.{seat_at};
ghost use Rattle.rooms.specs.Handing.{SameTerms, dockets_left, dockets_out, seat_after_parking};
ghost use Rattle.rooms.specs.States.{state};

use crate::out_dockets::OutDockets;
use crate::room::Room;

// A room in which a list of steps was made, with the dockets that are out there. It is not Drop, since they are not: its
// caller takes it apart and sends or parks each docket, or parks them all.
pub struct Ended {
    pub room: Room,
    pub dockets: OutDockets,
    ghost out: { dockets_left dockets ≡ dockets_out (state room) },
}

impl Ended {
    // Parks each docket, and answers the room.
    pub fn park_all(self) -> Room
        ensures seats { (s : ℕ) → seat_at (state result) s ≡ seat_after_parking (state self.room) s }
        ensures terms { SameTerms (state self.room) (state result) }
    {
        let Ended {
            mut room,
            mut dockets,
        } = self;
        while let Some((docket, others)) = dockets.next() {
            room.park(docket).unwrap();
            dockets = others;
        }
        room
    }
}
