// A room's whole life: it opens and makes one step after the other.
ghost use Rattle.std.specs.Prelude.{◌≡◌, ◌≤◌, length, drop, Ok};
ghost use Rattle.letters.specs.Refusals.{as_answer};
ghost use Rattle.lives.specs.Guarantees.{AlwaysGuaranteed};
ghost use Rattle.rooms.specs.Handing.{AreOut, dockets_left, dockets_out};
ghost use Rattle.rooms.specs.Running.{RunCarries, RunPromises, RunPath, StepsCarry, StepsGuarantee, StepsPath, StepsReach, StepsServe, run_answer};
ghost use Rattle.rooms.specs.States.{state};

use crate::draft::Draft;
use crate::ended::Ended;
use crate::out_dockets::OutDockets;
use crate::room::Room;
use carriers::carrier::Carrier;
use letters::body::Body;
use letters::letter::Letter;
use letters::refusal::Refusal;
use lives::operation::Operation;
use lives::response::Response;
use seats::docket_id::DocketId;
use sheets::sheet::Sheet;

// Whether the draft can be run. Refused with 5 where not every response has a place, and else as its opening is, with
// 4, 5, 6, 7.
pub fn check<B: Body, C: Carrier<Body = B>>(
    draft: &Draft,
    logs: &[Letter<B>],
    holds: &[Letter<B>],
    carrier: &C,
    steps: &[Operation<B, DocketId>],
    responses: &[Result<Response<DocketId>, Refusal>],
) -> Result<(), Refusal>
    ensures { as_answer (λ u. u) result ≡ run_answer C.Carrier draft.now logs.now holds.now carrier.now steps.now responses.now }
{
    if responses.len() < steps.len() {
        return Err(Refusal::TooShort);
    }
    draft.check_open(logs, holds, carrier)
}

// Opens the room, makes the steps in turn and writes down the response of each; of each seat whose docket is out in the end it
// hands out the docket. Whatever the steps are, the room keeps causal order, complete delivery and convergence on every kind
// of sheet, and did so after each step.
pub fn run<B: Body, C: Carrier<Body = B>, K: Sheet<Body = B>>(
    draft: Draft,
    logs: &mut [Letter<B>],
    holds: &mut [Letter<B>],
    carrier: &mut C,
    steps: &[Operation<B, DocketId>],
    responses: &mut [Result<Response<DocketId>, Refusal>],
) -> Ended
    requires { run_answer C.Carrier draft logs.old holds.old carrier.old steps.now responses.old ≡ Ok tt }
    ensures path { RunPath C.Carrier draft logs.old holds.old carrier.old steps.now responses.new result.room logs.new holds.new carrier.new }
    ensures reachable { StepsReach C.Carrier steps.now responses.new result.room logs.new holds.new carrier.new }
    ensures guarantees { StepsGuarantee K.Sheet C.Carrier steps.now responses.new result.room logs.new holds.new carrier.new }
    ensures throughout { RunPromises K.Sheet C.Carrier draft logs.old holds.old carrier.old steps.now responses.new result.room logs.new holds.new carrier.new }
    ensures always { AlwaysGuaranteed K.Sheet.kind }
    ensures carrier { RunCarries C.Carrier draft logs.old holds.old carrier.old steps.now responses.new result.room logs.new holds.new carrier.new }
    ensures serves { StepsServe C.Carrier carrier.old steps.now responses.new carrier.new }
    ensures dockets { dockets_left result.dockets ≡ dockets_out (state result.room) }
    ensures good { AreOut (state result.room) (dockets_left result.dockets) }
    ensures rest { drop (length steps.now) responses.new ≡ drop (length steps.now) responses.old }
{
    let mut room = draft.open(logs, holds, carrier);
    step_all(&mut room, logs, holds, carrier, steps, responses);
    let dockets = OutDockets::of(&room);
    Ended { room, dockets }
}

// Makes the steps in turn.
fn step_all<B: Body, C: Carrier<Body = B>>(
    room: &mut Room,
    logs: &mut [Letter<B>],
    holds: &mut [Letter<B>],
    carrier: &mut C,
    steps: &[Operation<B, DocketId>],
    responses: &mut [Result<Response<DocketId>, Refusal>],
)
    requires { length steps.now ≤ length responses.old }
    ensures path { StepsPath C.Carrier room.old logs.old holds.old carrier.old steps.now responses.new room.new logs.new holds.new carrier.new }
    ensures carrier { StepsCarry C.Carrier room.old logs.old holds.old carrier.old steps.now responses.new room.new logs.new holds.new carrier.new }
    ensures serves { StepsServe C.Carrier carrier.old steps.now responses.new carrier.new }
    ensures rest { drop (length steps.now) responses.new ≡ drop (length steps.now) responses.old }
{
    for (i, asked) in steps.iter().enumerate() {
        // Not by `iter_mut`: of what is written through it, nothing is known of the responses afterwards.
        responses[i] = room.step(logs, holds, carrier, *asked);
    }
}
