// The numbers of a docket.

// The three numbers of a docket: the room's, the seat and the letter's. Plain data: a step of a list of steps brings
// them, and a room refuses those that no docket out has.
#[derive(Clone, Copy, Default, PartialEq, Eq)]
pub struct DocketId {
    pub room: u32,
    pub seat: u8,
    pub number: u16,
}
