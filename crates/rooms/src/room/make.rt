// One step, whichever it is, with a docket in hand.
ghost use Rattle.std.specs.Prelude.{◌≡◌};
ghost use Rattle.rooms.specs.Asked.{AskedStep, AskedStaysReachable, response_as_answer, docket_brought, operation_of, docket_returned, docket_to_return};
ghost use Rattle.rooms.specs.Serving.{ServesOn};
ghost use Rattle.rooms.specs.WithCarrier.{StepCarries};

use crate::declined::Declined;
use crate::docket::Docket;
use crate::room::Room;
use carriers::carrier::Carrier;
use letters::body::Body;
use letters::letter::Letter;
use lives::operation::Operation;
use lives::response::Response;

impl Room {
    // Makes one step, by the call that it names, with a docket in hand where it takes one. By whatever steps the room was
    // reachable before, it is then reachable by those and this one.
    pub fn make<B: Body, C: Carrier<Body = B>>(
        &mut self,
        logs: &mut [Letter<B>],
        holds: &mut [Letter<B>],
        carrier: &mut C,
        asked: Operation<B, Docket>,
    ) -> Result<Response<Docket>, Declined>
        ensures step { AskedStep C.Carrier asked self.old logs.old holds.old carrier.old result self.new logs.new holds.new carrier.new }
        ensures stays_reachable { AskedStaysReachable C.Carrier asked self.old logs.old holds.old carrier.old result self.new logs.new holds.new carrier.new }
        ensures docket { docket_returned result ≡ docket_to_return (docket_brought asked) (response_as_answer result) }
        ensures carrier { StepCarries C.Carrier (operation_of asked) self.old logs.old holds.old carrier.old carrier.new }
        ensures serves { ServesOn C.Carrier.meaning C.Carrier.puts C.Carrier.rests (operation_of asked) (response_as_answer result) carrier.old carrier.new }
    {
        // A step is data, listed or read from bytes: a closure in its place would have to be made by the same match.
        match asked {
            Operation::Post(seat, body) => Ok(Response::Docket(self.post(
                logs, holds, seat, body,
            )?)),
            Operation::Send(docket) => {
                self.send(logs, holds, carrier, docket)?;
                Ok(Response::Done)
            }
            Operation::Park(docket) => {
                self.park(docket)?;
                Ok(Response::Done)
            }
            Operation::Collect(seat) => Ok(Response::Docket(self.collect(seat)?)),
            Operation::Take(seat, place) => {
                Ok(Response::Taken(self.take(logs, holds, carrier, seat, place)?))
            }
            Operation::Show(seat) => Ok(Response::Shown(self.show(logs, holds, seat)?)),
        }
    }
}
