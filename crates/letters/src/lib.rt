// Letters: who posted them, when, and what they carry; and why a call refuses.
#![tactic(auto)]

pub mod body;
pub mod job;
pub mod letter;
pub mod letter_id;
pub mod parts;
pub mod refusal;
pub mod stamp;
pub mod text;
