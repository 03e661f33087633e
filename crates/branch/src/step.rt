// A step of the program.
ghost use Rattle.std.specs.Prelude.{Some};
ghost use Rattle.branch.specs.StepLines.{call_name};

use letters::job::Job;
use letters::refusal::Refusal;
use std::fmt;
use std::fmt::{Display, Formatter};

// What is asked of the room: data, as it is read from bytes, and no closure.
#[derive(Clone, Copy)]
pub enum Call {
    // the job to post; or, where the form is bad, why the post is refused
    Post(Result<Job, Refusal>),
    Collect,
    // the place that is drawn from
    Take(u16),
    Show,
}

impl Display for Call {
    ghost output = { λ call. Some (call_name call) };

    fn fmt<W: fmt::Write>(&self, f: &mut Formatter<W>) -> fmt::Result {
        f.write_str(match self {
            Call::Post(_) => "post",
            Call::Collect => "collect",
            Call::Take(_) => "take",
            Call::Show => "show",
        })
    }
}

// A call, and the seat as it is brought.
#[derive(Clone, Copy)]
pub struct Step {
    pub call: Call,
    pub seat: u8,
}

// Bytes that write no step.
#[derive(Clone, Copy)]
pub struct NoStep;
