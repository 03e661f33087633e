// One step, whichever it is, by the numbers of a docket.
ghost use Rattle.lives.specs.Traces.{answer_of};
ghost use Rattle.rooms.specs.WithCarrier.{StepMade, StepCarries};

use crate::room::Room;
use carriers::carrier::Carrier;
use letters::body::Body;
use letters::letter::Letter;
use letters::refusal::Refusal;
use lives::operation::Operation;
use lives::response::Response;
use seats::docket_id::DocketId;

impl Room {
    // Makes one step. A docket is given and answered by its numbers, and nobody has it in hand, so that a list of steps is
    // plain data. No caller outside the crate may send by numbers: `run` alone makes lists of steps.
    pub(crate) fn step<B: Body, C: Carrier<Body = B>>(
        &mut self,
        logs: &mut [Letter<B>],
        holds: &mut [Letter<B>],
        carrier: &mut C,
        asked: Operation<B, DocketId>,
    ) -> Result<Response<DocketId>, Refusal>
        ensures step { StepMade C.Carrier asked self.old logs.old holds.old carrier.old (answer_of result) self.new logs.new holds.new carrier.new }
        ensures carrier { StepCarries C.Carrier asked self.old logs.old holds.old carrier.old carrier.new }
    {
        match asked {
            Operation::Post(seat, body) => {
                Ok(Response::Docket(self.post_for_id(logs, holds, seat, body)?))
            }
            Operation::Send(docket_id) => {
                self.send_by_id(logs, holds, carrier, docket_id)?;
                Ok(Response::Done)
            }
            Operation::Park(docket_id) => {
                self.park_by_id(docket_id)?;
                Ok(Response::Done)
            }
            Operation::Collect(seat) => Ok(Response::Docket(self.collect_for_id(seat)?)),
            Operation::Take(seat, place) => {
                Ok(Response::Taken(self.take(logs, holds, carrier, seat, place)?))
            }
            Operation::Show(seat) => Ok(Response::Shown(self.show(logs, holds, seat)?)),
        }
    }
}
