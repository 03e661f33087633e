// Making the steps of the program on a room.
ghost use Rattle.std.specs.Prelude.{◌≡◌, true};
ghost use Rattle.seats.specs.declared.seat.DocketEvent.TheVariants.{Park};
ghost use Rattle.seats.specs.Outcomes.{docket_room, good_docket, park_answer};
ghost use Rattle.lives.specs.declared.operation.Operation.TheVariants.{Collect, Post, Show, Take};
ghost use Rattle.rooms.specs.States.{id_of, state};
ghost use Rattle.branch.specs.Driving.{SessionEffect};
ghost use Rattle.branch.specs.StepEffects.{CallsMade, Dispatched, docket_calls, show_calls, take_calls};

use crate::outcome::Outcome;
use crate::session::Session;
use crate::step::{Call, Step};
use carriers::carrier::Carrier;
use letters::job::Job;
use letters::refusal::Refusal;
use rooms::docket::{Docket, Returned};

impl<C: Carrier<Body = Job>> Session<'_, '_, C> {
    // Makes one step, and answers its outcome. A docket is sent at once, and parked where that is refused.
    pub fn make_step(&mut self, step: Step) -> Result<Outcome, Refusal>
        ensures { SessionEffect C.Carrier step.seat step.call self.old result self.new }
    {
        match step.call {
            Call::Post(job) => self.post(step.seat, job?),
            Call::Collect => self.collect(step.seat),
            Call::Take(place) => self.take(step.seat, place),
            Call::Show => self.show(step.seat),
        }
    }

    fn post(&mut self, seat: u8, job: Job) -> Result<Outcome, Refusal>
        ensures { CallsMade C.Carrier.meaning C.Carrier.puts C.Carrier.rests (docket_calls (Post seat job) result) self.old self.new }
    {
        // A table goes as `&` through a variable: the check has no rule for a `&mut` field lent as `&` beside one lent as `&mut`.
        let holds = &mut *self.holds;
        let docket = self.room.post(self.logs, holds, seat, job)?;
        Ok(self.dispatch(docket))
    }

    fn collect(&mut self, seat: u8) -> Result<Outcome, Refusal>
        ensures { CallsMade C.Carrier.meaning C.Carrier.puts C.Carrier.rests (docket_calls (Collect seat) result) self.old self.new }
    {
        let docket = self.room.collect(seat)?;
        Ok(self.dispatch(docket))
    }

    // Sends a docket that is out at the room, or parks it.
    fn dispatch(&mut self, docket: Docket) -> Outcome
        requires { good_docket (state self.old.room) (id_of docket) ≡ true }
        ensures { Dispatched C.Carrier.meaning C.Carrier.puts C.Carrier.rests (id_of docket) self.old result self.new }
    {
        let docket_id = docket.id();
        let logs = &mut *self.logs;
        let holds = &mut *self.holds;
        match self.room.send(logs, holds, &mut self.carrier, docket) {
            Ok(()) => Outcome::Sent(docket_id),
            Err(Returned { docket, refusal }) => {
                self.room.park(docket).unwrap();
                Outcome::Parked(docket_id, refusal)
            }
        }
    }

    fn take(&mut self, seat: u8, place: u16) -> Result<Outcome, Refusal>
        ensures { CallsMade C.Carrier.meaning C.Carrier.puts C.Carrier.rests (take_calls (Take seat place) result) self.old self.new }
    {
        let logs = &mut *self.logs;
        let taken = self.room.take(logs, self.holds, &mut self.carrier, seat, u32::from(place))?;
        Ok(Outcome::Taken(taken))
    }

    fn show(&mut self, seat: u8) -> Result<Outcome, Refusal>
        ensures { CallsMade C.Carrier.meaning C.Carrier.puts C.Carrier.rests (show_calls (Show seat) result) self.old self.new }
    {
        let id = self.room.show(self.logs, self.holds, seat)?;
        Ok(Outcome::Shown(id))
    }
}
