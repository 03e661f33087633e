// The kinds of sheet: the timeline and the job list.
#![tactic(auto)]

pub mod job_list;
pub mod open_job;
pub mod row;
pub mod timeline;
