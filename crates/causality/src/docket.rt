// Where a seat's docket is: the claim on its newest letter, until that is sent.
#[derive(Clone, Copy, PartialEq, Eq)]
pub enum DocketState {
    // There is none: all that the seat posted is sent.
    Clear,
    // The caller has it, to send or to park.
    Out,
    // It is left for later, to be collected.
    Parked,
}
