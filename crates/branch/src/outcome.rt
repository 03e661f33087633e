// The outcome of a step.
ghost use Rattle.std.specs.Prelude.{Some};
ghost use Rattle.branch.specs.StepLines.{outcome_words};

use letters::letter_id::LetterId;
use letters::refusal::Refusal;
use seats::docket_id::DocketId;
use seats::take_outcome::TakeOutcome;
use std::fmt;
use std::fmt::{Display, Formatter};

// The outcome of a step that is not refused. A letter that is sent or parked is given by its docket's numbers.
#[derive(Clone, Copy)]
pub enum Outcome {
    Sent(DocketId),
    // parked, and why it was not sent
    Parked(DocketId, Refusal),
    Taken(TakeOutcome),
    Shown(LetterId),
}

impl Display for Outcome {
    ghost output = { λ outcome. Some (outcome_words outcome) };

    fn fmt<W: fmt::Write>(&self, f: &mut Formatter<W>) -> fmt::Result {
        match self {
            Outcome::Sent(docket_id) => write!(f, "sent {}.{}", docket_id.seat, docket_id.number),
            Outcome::Parked(docket_id, _) => write!(
                f,
                "parked {}.{}",
                docket_id.seat, docket_id.number
            ),
            Outcome::Taken(taken) => write!(f, "{taken}"),
            Outcome::Shown(id) => write!(f, "shown {id}"),
        }
    }
}
