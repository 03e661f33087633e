// Making the steps that are read.
ghost use Rattle.std.specs.Prelude.{IfOk};
ghost use Rattle.branch.specs.Driving.{SessionRun, SessionTry};

use crate::line::{add_bad, add_step};
use crate::session::Session;
use crate::step::{NoStep, Step};
use carriers::carrier::Carrier;
use letters::job::Job;
use std::alloc::AllocError;

// How many bytes a step has.
const STEP: usize = 8;

impl<C: Carrier<Body = Job>> Session<'_, '_, C> {
    // Makes the step that the bytes write and adds its line, or adds the line of what is no step.
    fn try_step(
        &mut self,
        bytes: &[u8],
        index: u64,
        lines: &mut String,
    ) -> Result<Result<(), NoStep>, AllocError>
        ensures { IfOk result (λ tried. SessionTry C.Carrier tried bytes.now index lines.old self.old lines.new self.new) }
    {
        match Step::try_from(bytes) {
            Ok(step) => {
                let outcome = self.make_step(step);
                add_step(lines, index, step, outcome)?;
                Ok(Ok(()))
            }
            Err(none) => {
                add_bad(lines, index)?;
                Ok(Err(none))
            }
        }
    }

    // Makes the steps that the bytes write, counted on from an index, and adds their lines, up to what is no step.
    pub fn make_steps(
        &mut self,
        bytes: &[u8],
        index: &mut u64,
        lines: &mut String,
    ) -> Result<Result<(), NoStep>, AllocError>
        ensures { IfOk result (λ made. SessionRun C.Carrier made bytes.now index.old lines.old self.old index.new lines.new self.new) }
    {
        for step in bytes.chunks(STEP) {
            match self.try_step(step, *index, lines)? {
                Ok(()) => *index = index.saturating_add(1),
                Err(none) => return Ok(Err(none)),
            }
        }
        Ok(Ok(()))
    }
}
