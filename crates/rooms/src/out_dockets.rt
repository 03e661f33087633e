// The dockets that are out when a list of steps ends.
ghost use Rattle.std.specs.Prelude.{◌≡◌};
ghost use Rattle.std.specs.Option.{option_map};
ghost use Rattle.rooms.specs.Handing.{docket_and_others, dockets_left, dockets_out, first_docket};
ghost use Rattle.rooms.specs.States.{state};

use crate::docket::Docket;
use crate::room::Room;
use arrayvec::ArrayVec;
use seats::docket_id::DocketId;

// Dockets that nobody has in hand yet, by their numbers. Like a docket, it is not Drop: one docket after the other is taken,
// to be sent or parked, and only where none is left it is gone.
pub struct OutDockets {
    ids: ArrayVec<DocketId, 16>,
}

impl OutDockets {
    // The dockets that are out at a room, where nobody has any of them in hand. `run` alone calls it, at its
    // end: two calls would hand out two dockets of one letter.
    pub(crate) fn of(room: &Room) -> OutDockets
        ensures { dockets_left result ≡ dockets_out (state room.now) }
    {
        let mut ids = ArrayVec::new();
        for seat in 0..16 {
            if let Some(docket_id) = room.out(seat) {
                ids.push(docket_id);
            }
        }
        OutDockets { ids }
    }

    // Takes the first docket, and answers it with the others. None, where none is left.
    pub fn next(self) -> Option<(Docket, OutDockets)>
        ensures { option_map docket_and_others result ≡ first_docket (dockets_left self) }
    {
        let OutDockets { mut ids } = self;
        let docket_id = ids.pop_at(0)?;
        Some((Docket::of(docket_id), OutDockets { ids }))
    }
}
