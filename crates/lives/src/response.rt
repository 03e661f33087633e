// What a room answers to a step.
use letters::letter_id::LetterId;
use seats::take_outcome::TakeOutcome;

// The answer of a step that was made; one that was not has a refusal in its place. What it answers of a docket, D, is the
// docket itself or its numbers, as the step brings them.
#[derive(Clone, Copy)]
pub enum Response<D> {
    Docket(D),
    Done,
    Taken(TakeOutcome),
    Shown(LetterId),
}
