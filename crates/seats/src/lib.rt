// What a room keeps for its seats, and what each call on a room answers and leaves.
#![tactic(auto)]

pub mod docket_id;
pub mod finding;
pub mod parts;
pub mod seat;
pub mod take_outcome;
