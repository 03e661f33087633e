// A closed room.
use crate::room::Room;

mod read;

// A room after its end: it is only read.
#[derive(Drop)]
pub struct ClosedRoom {
    pub(crate) room: Room,
}
