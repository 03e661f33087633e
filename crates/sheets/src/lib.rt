// Sheets: what results from a log of letters, in whatever order side-by-side letters stand in it.
#![tactic(auto)]

pub mod pages;
pub mod placing;
pub mod sheet;
