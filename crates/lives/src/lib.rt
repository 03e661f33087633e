// The lives of rooms: what the steps on a room result in from its opening on, and what is kept at all times.
#![tactic(auto)]

pub mod laws;
pub mod operation;
pub mod response;
