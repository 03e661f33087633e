// A room's life, with the dockets that are in hand.
ghost use Rattle.std.specs.Prelude.{◌≡◌, true, None, Some, Option};
ghost use Rattle.rooms.specs.declared.docket.Docket.{Docket};
ghost use Rattle.rooms_check.specs.Hands.{drafted_as, fits_back, good_in, numbered_as, of_two_seats};

use crate::calls::AnswerLine;
use carriers::carrier::Carrier;
use letters::body::Body;
use letters::letter::Letter;
use letters::refusal::Refusal;
use rooms::closed::ClosedRoom;
use rooms::docket::{Docket, Returned};
use rooms::draft::Draft;
use rooms::room::Room;
use sheets::sheet::Sheet;
use std::mem;

pub mod site;

// A room, whichever of the three it is, or none of them; and the dockets of it that are in hand, at most two.
struct Life {
    draft: Option<Draft>,
    room: Option<Room>,
    closed: Option<ClosedRoom>,
    // the room's number
    number: u32,
    left: Option<Docket>,
    right: Option<Docket>,
    ghost drafted: { drafted_as number draft ≡ true },
    ghost numbered: { numbered_as number room ≡ true },
    ghost left_good: { good_in room left ≡ true },
    ghost right_good: { good_in room right ≡ true },
    ghost two_seats: { of_two_seats left right ≡ true },
}

// Parks the docket of a hand at the room.
fn leave(room: &mut Option<Room>, hand: Option<Docket>)
    requires { good_in room.old hand ≡ true }
    ensures nothing { hand ≡ None → room.new ≡ room.old }
    ensures others { (other : Option Docket) → good_in room.old other ≡ true → of_two_seats hand other ≡ true → good_in room.new other ≡ true }
{
    if let Some(docket) = hand {
        match room {
            Some(room) => room.park(docket).unwrap(),
            None => unreachable(),
        }
    }
}

// The dockets that are still in hand are parked.
impl Drop for Life {
    fn drop(self) {
        let Life {
            draft: _,
            mut room,
            closed: _,
            number: _,
            left,
            right,
        } = self;
        leave(&mut room, left);
        leave(&mut room, right);
    }
}

impl Life {
    fn new() -> Life {
        Life {
            draft: None,
            room: None,
            closed: None,
            number: 0,
            left: None,
            right: None,
        }
    }

    // Puts each docket into the other hand, where a call is of the right one: the calls below take and fill the left one.
    fn turn(&mut self, right: bool) {
        if right {
            mem::swap(&mut self.left, &mut self.right);
        }
    }

    fn start(&mut self, number: u32, quota: u16) -> AnswerLine {
        if self.room.is_some() {
            return AnswerLine::Unfit;
        }
        if let Err(why) = Draft::check(quota) {
            return AnswerLine::Refused(why);
        }
        self.draft = Some(Draft::new(number, quota));
        self.closed = None;
        self.number = number;
        AnswerLine::Done
    }

    fn enrol(&mut self, name: u32) -> AnswerLine {
        let Some(draft) = &mut self.draft else {
            return AnswerLine::Unfit;
        };
        match draft.enrol(name) {
            Ok(seat) => AnswerLine::Seat(seat),
            Err(why) => AnswerLine::Refused(why),
        }
    }

    fn open<B: Body, C: Carrier<Body = B>>(
        &mut self,
        logs: &[Letter<B>],
        holds: &[Letter<B>],
        carrier: &C,
    ) -> AnswerLine {
        if self.room.is_some() {
            return AnswerLine::Unfit;
        }
        let Some(draft) = &self.draft else {
            return AnswerLine::Unfit;
        };
        if let Err(why) = draft.check_open(logs, holds, carrier) {
            return AnswerLine::Refused(why);
        }
        if let Some(draft) = self.draft.take() {
            self.room = Some(draft.open(logs, holds, carrier));
        }
        AnswerLine::Done
    }

    fn draft(&self) -> Option<&Draft> {
        self.draft.as_ref()
    }

    // Whether the room may open.
    fn check_open<B: Body, C: Carrier<Body = B>>(
        &self,
        logs: &[Letter<B>],
        holds: &[Letter<B>],
        carrier: &C,
    ) -> AnswerLine {
        match &self.draft {
            Some(draft) => AnswerLine::of(draft.check_open(logs, holds, carrier)),
            None => AnswerLine::Unfit,
        }
    }

    // Posts, with the docket into a hand.
    fn post<B: Body>(
        &mut self,
        right: bool,
        logs: &mut [Letter<B>],
        holds: &[Letter<B>],
        seat: u8,
        body: B,
    ) -> AnswerLine {
        self.turn(right);
        let answer = self.post_left(logs, holds, seat, body);
        self.turn(right);
        answer
    }

    fn post_left<B: Body>(
        &mut self,
        logs: &mut [Letter<B>],
        holds: &[Letter<B>],
        seat: u8,
        body: B,
    ) -> AnswerLine {
        if self.left.is_some() {
            return AnswerLine::Unfit;
        }
        let Some(room) = &mut self.room else {
            return AnswerLine::Unfit;
        };
        match room.post(logs, holds, seat, body) {
            Ok(docket) => self.take_in_hand(docket),
            Err(why) => AnswerLine::Refused(why),
        }
    }

    // Collects a docket into a hand.
    fn collect(&mut self, right: bool, seat: u8) -> AnswerLine {
        self.turn(right);
        let answer = self.collect_left(seat);
        self.turn(right);
        answer
    }

    fn collect_left(&mut self, seat: u8) -> AnswerLine {
        if self.left.is_some() {
            return AnswerLine::Unfit;
        }
        let Some(room) = &mut self.room else {
            return AnswerLine::Unfit;
        };
        match room.collect(seat) {
            Ok(docket) => self.take_in_hand(docket),
            Err(why) => AnswerLine::Refused(why),
        }
    }

    // Takes a docket into the left hand, which is empty.
    fn take_in_hand(&mut self, docket: Docket) -> AnswerLine
        requires empty { self.old.left ≡ None }
        requires good { good_in self.old.room (Some docket) ≡ true }
        requires two_seats { of_two_seats (Some docket) self.old.right ≡ true }
    {
        let docket_id = docket.id();
        let was = self.left.replace(docket);
        leave(&mut self.room, was);
        AnswerLine::Docket(docket_id)
    }

    // Takes a docket back that was refused.
    fn take_back(&mut self, answer: Result<(), Returned>) -> AnswerLine
        requires empty { self.old.left ≡ None }
        requires fits { fits_back self.old.room self.old.right answer ≡ true }
    {
        match answer {
            Ok(()) => AnswerLine::Done,
            Err(Returned { docket, refusal }) => {
                let _ = self.take_in_hand(docket);
                AnswerLine::Refused(refusal)
            }
        }
    }

    // Sends the docket of a hand.
    fn send<B: Body, C: Carrier<Body = B>>(
        &mut self,
        right: bool,
        logs: &[Letter<B>],
        holds: &[Letter<B>],
        carrier: &mut C,
    ) -> AnswerLine {
        self.turn(right);
        let answer = self.send_left(logs, holds, carrier);
        self.turn(right);
        answer
    }

    fn send_left<B: Body, C: Carrier<Body = B>>(
        &mut self,
        logs: &[Letter<B>],
        holds: &[Letter<B>],
        carrier: &mut C,
    ) -> AnswerLine {
        let Some(room) = &mut self.room else {
            return AnswerLine::Unfit;
        };
        let Some(docket) = self.left.take() else {
            return AnswerLine::Unfit;
        };
        let answer = room.send(logs, holds, carrier, docket);
        self.take_back(answer)
    }

    // Parks the docket of a hand.
    fn park(&mut self, right: bool) -> AnswerLine {
        self.turn(right);
        let answer = self.park_left();
        self.turn(right);
        answer
    }

    fn park_left(&mut self) -> AnswerLine {
        let Some(room) = &mut self.room else {
            return AnswerLine::Unfit;
        };
        let Some(docket) = self.left.take() else {
            return AnswerLine::Unfit;
        };
        let answer = room.park(docket);
        self.take_back(answer)
    }

    // Sends the docket of a hand at another room.
    fn send_at<B: Body, C: Carrier<Body = B>>(
        &mut self,
        other: &mut Life,
        right: bool,
        logs: &[Letter<B>],
        holds: &[Letter<B>],
        carrier: &mut C,
    ) -> AnswerLine {
        self.turn(right);
        let answer = self.send_left_at(other, logs, holds, carrier);
        self.turn(right);
        answer
    }

    fn send_left_at<B: Body, C: Carrier<Body = B>>(
        &mut self,
        other: &mut Life,
        logs: &[Letter<B>],
        holds: &[Letter<B>],
        carrier: &mut C,
    ) -> AnswerLine {
        if self.number == other.number {
            return AnswerLine::Unfit;
        }
        let Some(room) = &mut other.room else {
            return AnswerLine::Unfit;
        };
        let Some(docket) = self.left.take() else {
            return AnswerLine::Unfit;
        };
        let answer = room.send(logs, holds, carrier, docket);
        self.take_back(answer)
    }

    // Parks the docket of a hand at another room.
    fn park_at(&mut self, other: &mut Life, right: bool) -> AnswerLine {
        self.turn(right);
        let answer = self.park_left_at(other);
        self.turn(right);
        answer
    }

    fn park_left_at(&mut self, other: &mut Life) -> AnswerLine {
        if self.number == other.number {
            return AnswerLine::Unfit;
        }
        let Some(room) = &mut other.room else {
            return AnswerLine::Unfit;
        };
        let Some(docket) = self.left.take() else {
            return AnswerLine::Unfit;
        };
        let answer = room.park(docket);
        self.take_back(answer)
    }

    fn take<B: Body, C: Carrier<Body = B>>(
        &mut self,
        logs: &[Letter<B>],
        holds: &mut [Letter<B>],
        carrier: &mut C,
        seat: u8,
        place: u32,
    ) -> AnswerLine {
        let Some(room) = &mut self.room else {
            return AnswerLine::Unfit;
        };
        match room.take(logs, holds, carrier, seat, place) {
            Ok(taken) => AnswerLine::Taken(taken),
            Err(why) => AnswerLine::Refused(why),
        }
    }

    fn show<B: Body>(
        &mut self,
        logs: &mut [Letter<B>],
        holds: &mut [Letter<B>],
        seat: u8,
    ) -> AnswerLine {
        let Some(room) = &mut self.room else {
            return AnswerLine::Unfit;
        };
        match room.show(logs, holds, seat) {
            Ok(id) => AnswerLine::Shown(id),
            Err(why) => AnswerLine::Refused(why),
        }
    }

    fn close(&mut self) -> AnswerLine {
        let Some(room) = &self.room else {
            return AnswerLine::Unfit;
        };
        if let Err(why) = room.check_close() {
            return AnswerLine::Refused(why);
        }
        if let Some(room) = self.room.take() {
            self.closed = Some(room.close());
        }
        AnswerLine::Done
    }

    // Draws up a log of the open or the closed room; none where it is neither.
    fn draw_up<K: Sheet>(
        &self,
        logs: &[Letter<K::Body>],
        holds: &[Letter<K::Body>],
        seat: u8,
        sheet: &mut K,
    ) -> Option<Result<(), Refusal>> {
        match (&self.room, &self.closed) {
            (Some(room), _) => Some(room.draw_up(logs, holds, seat, sheet)),
            (None, Some(closed)) => Some(closed.draw_up(logs, holds, seat, sheet)),
            (None, None) => None,
        }
    }

    fn log<'t, B: Body>(
        &self,
        logs: &'t [Letter<B>],
        holds: &[Letter<B>],
        seat: u8,
    ) -> Option<Result<&'t [Letter<B>], Refusal>> {
        match (&self.room, &self.closed) {
            (Some(room), _) => Some(room.log(logs, holds, seat)),
            (None, Some(closed)) => Some(closed.log(logs, holds, seat)),
            (None, None) => None,
        }
    }

    fn pages(&self, seat: u8) -> Option<Result<u32, Refusal>> {
        match (&self.room, &self.closed) {
            (Some(room), _) => Some(room.pages(seat)),
            (None, Some(closed)) => Some(closed.pages(seat)),
            (None, None) => None,
        }
    }
}
