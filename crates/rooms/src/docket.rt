// The docket of a posted letter.
ghost use Rattle.std.specs.Prelude.{◌≡◌};
ghost use Rattle.rooms.specs.States.{id_of};

use letters::refusal::Refusal;
use seats::docket_id::DocketId;

// The right to send one posted letter. It is not Drop: a docket is sent or parked, never let fall.
pub struct Docket {
    room: u32,
    seat: u8,
    number: u16,
}

// A refused docket, as it was, and why it is refused.
pub struct Returned {
    pub docket: Docket,
    pub refusal: Refusal,
}

impl Docket {
    // The room's number.
    pub fn room(&self) -> u32
        ensures { result ≡ self.now.room }
    {
        self.room
    }

    // The seat that posted the letter.
    pub fn seat(&self) -> u8
        ensures { result ≡ self.now.seat }
    {
        self.seat
    }

    // The letter's number there.
    pub fn number(&self) -> u16
        ensures { result ≡ self.now.number }
    {
        self.number
    }

    // The room, the seat and the number, which are no docket by themselves.
    pub fn id(&self) -> DocketId
        ensures { result ≡ id_of self.now }
    {
        let Docket { room, seat, number } = self;
        DocketId {
            room: *room,
            seat: *seat,
            number: *number,
        }
    }

    // The docket of these numbers. A public `From` would let any caller make a docket.
    pub(crate) fn of(numbers: DocketId) -> Docket
        ensures { id_of result ≡ numbers }
    {
        let DocketId { room, seat, number } = numbers;
        Docket { room, seat, number }
    }

    // Its numbers, where it is spent. A public `From` would let any caller be rid of a docket unspent.
    pub(crate) fn into_id(self) -> DocketId
        ensures { result ≡ id_of self }
    {
        let Docket { room, seat, number } = self;
        DocketId { room, seat, number }
    }
}
