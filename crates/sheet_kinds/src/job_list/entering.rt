// Which jobs a job list has open, and how letters are entered there.
ghost use Rattle.std.specs.Prelude.{◌≡◌, ◌+◌, ◌<◌, ◌≤◌, true, length, position, refl};
ghost use Rattle.letters.specs.Refusals.{as_answer};
ghost use Rattle.sheet_kinds.specs.JobLists.{CodesFollow, JobListMeaning, code_in, job_list_kind, job_list_of, no_jobs, open_job, with_job, without_job};
ghost use Rattle.arrayvec.specs.ArrayVec.{array_vec_len};
ghost use Rattle.sheets.specs.Sheets.{acceptance, enter_outcome, meaning_left};
ghost use Rattle.sheets.specs.Placing.{rising};
ghost use Rattle.sheet_kinds.specs.KindLemmas.{job_order};
ghost use Rattle.sheet_kinds.specs.OpenJobs.{job_after, job_is};
ghost use Rattle.sheet_kinds.specs.JobSwapLemmas.{jobs_swap};
ghost use Rattle.sheet_kinds.specs.declared.job_list.TheConstants.{PLACES};

use crate::job_list::{self, JobList};
use crate::open_job::OpenJob;
use arrayvec::ArrayVec;
use letters::body::Body as _;
use letters::job::Job;
use letters::letter::Letter;
use letters::letter_id::LetterId;
use letters::refusal::Refusal;
use sheets::placing::{OrderedRow, insert};
use sheets::sheet::Sheet;

impl OrderedRow for OpenJob {
    ghost after = { job_after };

    fn is_after(&self, new: &OpenJob) -> bool {
        // Spelt out: a comparison of pairs takes three times the instructions.
        self.poster > new.poster || (self.poster == new.poster && self.number > new.number)
    }

    ghost ordered = { job_order };
}

impl OpenJob {
    // Whether the letter with this name opened the job.
    fn is_of(&self, id: LetterId) -> bool
        ensures { result ≡ job_is self.now id.poster id.number }
    {
        self.poster == id.poster() && self.number == id.number()
    }
}

impl JobList {
    pub fn new() -> Self
        ensures { job_list_of result ≡ no_jobs }
    {
        JobList {
            rows: ArrayVec::new(),
            entered: 0,
        }
    }

    // The open jobs, in order of p.n.
    pub fn jobs(&self) -> &[OpenJob]
        ensures jobs { result.now ≡ (job_list_of self.now).jobs }
        ensures ordered { rising job_after result.now ≡ true }
    {
        self.rows.as_slice()
    }

    // The code of a job, where it is open. The letters entered change it as their bodies say.
    pub fn code_of(&self, id: LetterId) -> Option<u32>
        ensures answer { result ≡ code_in (job_list_of self.now).jobs id.poster id.number }
        ensures follows { CodesFollow }
    {
        self.jobs()
            .iter()
            .find(|job| job.is_of(id))
            .map(|job| job.code)
    }

    // The place of the job of this letter, where it is open.
    fn place_of(&self, id: LetterId) -> Option<usize>
        ensures { result ≡ position (λ r. job_is r id.poster id.number) (job_list_of self.now).jobs }
    {
        self.rows.iter().position(|job| job.is_of(id))
    }

    // Closes the job of this letter, where it is open.
    #[tactic(auto, using(crate::proofs::Closing::closed))]
    fn close(&mut self, id: LetterId)
        ensures counted { self.new.entered ≡ self.old.entered }
        ensures shorter { array_vec_len self.new.rows ≤ array_vec_len self.old.rows }
        ensures jobs { (job_list_of self.new).jobs ≡ without_job (job_list_of self.old).jobs id.poster id.number }
    {
        if let Some(at) = self.place_of(id) {
            self.rows.remove(at);
        }
    }

    // Opens a job of this letter, which replaces one that is open.
    fn open(&mut self, id: LetterId, code: u32)
        requires { array_vec_len self.old.rows < self.old.entered }
        ensures counted { self.new.entered ≡ self.old.entered }
        ensures jobs { (job_list_of self.new).jobs ≡ with_job (job_list_of self.old).jobs (open_job id.poster id.number code) }
    {
        self.close(id);
        let job = OpenJob {
            poster: id.poster(),
            number: id.number(),
            code,
        };
        // A place is free: fewer jobs are open than letters are entered.
        insert(&mut self.rows, job);
    }
}

impl Sheet for JobList {
    type Body = Job;

    const PLACES: u32 = job_list::PLACES as u32;

    ghost PLACES = { PLACES };

    ghost Meaning = { JobListMeaning };

    ghost meaning = { job_list_of };

    ghost kind = { job_list_kind };

    ghost sized = { refl };

    ghost lawful = { record {
      starts = refl;
      adds = λ m x room. refl;
      commutes = λ m x y room side.
          let swap = jobs_swap x.body y.body x y side m.jobs in
          λ i. record { count = m.count + 1 + 1; jobs = swap i };
    } };

    fn letters(&self) -> u32 {
        self.entered
    }

    fn clear(&mut self) {
        self.rows.clear();
        self.entered = 0;
    }

    fn enter(&mut self, letter: &Letter<Job>) -> Result<(), Refusal>
        ensures answer { as_answer (λ u. u) result ≡ acceptance (enter_outcome job_list_kind (job_list_of self.old) letter.now) }
        ensures leaves { job_list_of self.new ≡ meaning_left (enter_outcome job_list_kind (job_list_of self.old) letter.now) (job_list_of self.old) }
        ensures untouched { job_list_kind.count (job_list_of self.old) ≡ job_list_kind.places → self.new ≡ self.old }
    {
        if self.entered == Self::PLACES {
            return Err(Refusal::SheetFull);
        }
        self.entered += 1;
        match letter.body() {
            Job::Add(code) => self.open(letter.id(), *code),
            Job::Strike(id) => {
                if letter.covers(*id) {
                    self.close(*id);
                }
            }
        }
        Ok(())
    }
}
