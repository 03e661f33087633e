// Letters as records, and files of them.
#![tactic(auto)]

mod bytes;
pub mod fault;
pub mod file;
pub mod load_refusal;
pub mod reader;
pub mod record;
mod stamps;
