ghost use Rattle.std.specs.Prelude.{◌≡◌, ◌≤◌, true};
ghost use Rattle.arrayvec.specs.ArrayVec.{array_vec_len};
ghost use Rattle.sheets.specs.Placing.{rising};
ghost use Rattle.sheet_kinds.specs.OpenJobs.{job_after};
ghost use Rattle.sheet_kinds.specs.declared.job_list.TheConstants.{PLACES};

use crate::open_job::OpenJob;
use arrayvec::ArrayVec;

pub mod entering;

// How many letters can be entered.
pub const PLACES: usize = 128;

// A sheet of jobs: those that are open, in order of p.n. A letter opens one job at most, so there is room for all.
#[derive(Drop)]
pub struct JobList {
    rows: ArrayVec<OpenJob, PLACES>,
    entered: u32,
    ghost few: { array_vec_len rows ≤ entered },
    ghost fit: { entered ≤ PLACES },
    ghost ordered: { rising job_after rows.items ≡ true },
}
