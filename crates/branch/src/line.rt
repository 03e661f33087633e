// The lines of the program.
ghost use Rattle.std.specs.Prelude.{◌≡◌, ◌++◌, OnOk, Some, string_bytes};
ghost use Rattle.std.specs.List.{flat_map};
ghost use Rattle.branch.specs.StepLines.{after_space, bad_line, log_line, step_line};

use crate::outcome::Outcome;
use crate::step::Step;
use letters::job::Job;
use letters::letter::Letter;
use letters::refusal::Refusal;
use std::alloc::AllocError;
use std::fmt;
use std::fmt::{Display, Formatter};

// Adds the line of a step, with its outcome or why it was refused.
pub fn add_step(
    line: &mut String,
    index: u64,
    step: Step,
    outcome: Result<Outcome, Refusal>,
) -> Result<(), AllocError>
    ensures { OnOk result (string_bytes line.new ≡ string_bytes line.old ++ step_line index step outcome) }
{
    let Step { call, seat } = step;
    match outcome {
        Ok(outcome) => writeln!(line, "{index} {call} {seat} {outcome}"),
        Err(why) => writeln!(line, "{index} {call} {seat} refused {why}"),
    }
}

// Adds the line of what is no step.
pub fn add_bad(line: &mut String, index: u64) -> Result<(), AllocError>
    ensures { OnOk result (string_bytes line.new ≡ string_bytes line.old ++ bad_line index) }
{
    writeln!(line, "{index} bad")
}

// The names of the letters of a log, each after a space.
#[derive(Clone, Copy)]
struct Names<'a>(&'a [Letter<Job>]);

impl Display for Names<'_> {
    ghost output = { λ names. Some (flat_map after_space names.0.now) };

    fn fmt<W: fmt::Write>(&self, f: &mut Formatter<W>) -> fmt::Result {
        for letter in self.0 {
            let id = letter.id();
            write!(f, " {id}")?;
        }
        Ok(())
    }
}

// Adds the line of a seat's log.
pub fn add_log(line: &mut String, seat: u8, log: &[Letter<Job>]) -> Result<(), AllocError>
    ensures { OnOk result (string_bytes line.new ≡ string_bytes line.old ++ log_line seat log.now) }
{
    let names = Names(log);
    writeln!(line, "log {seat}{names}")
}
