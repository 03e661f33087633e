// Carriers: what takes letters from seat to seat. Lines are one make of carrier.
#![tactic(auto)]

pub mod carrier;
pub mod lines;
mod queue;
