// The theory of runs: what happens in a room over any carrier, what led to what, and what is kept at all times.
#![tactic(auto)]

pub mod completeness;
pub mod docket;
pub mod drawing;
pub mod order;
