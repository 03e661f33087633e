// Rooms of boxes that post letters to one another, and show them in causal order.
#![tactic(auto)]

pub mod closed;
pub mod declined;
pub mod docket;
pub mod draft;
pub mod ended;
pub mod out_dockets;
pub mod room;
pub mod run;
mod terms;
