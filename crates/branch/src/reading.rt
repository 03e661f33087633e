// Reading steps.
ghost use Rattle.std.specs.Prelude.{◌≡◌};
ghost use Rattle.letters.specs.Jobs.{content_of_job};
ghost use Rattle.letters.specs.Refusals.{as_answer};
ghost use Rattle.branch.specs.ProgramSteps.{content_of_step, job_of_post, step_of};

use crate::step::{Call, NoStep, Step};
use letters::job::Job;
use letters::refusal::Refusal;

// The step that eight bytes write; none where they are another number, or the call is another one.
impl TryFrom<&[u8]> for Step {
    type Error = NoStep;

    ghost try_from_gives = { λ bytes step. content_of_step step ≡ step_of bytes.now };

    fn try_from(bytes: &[u8]) -> Result<Step, NoStep> {
        let (call, seat) = match bytes {
            &[1, seat, kind, poster, a, b, c, d] => {
                (Call::Post(read_job(kind, poster, [a, b, c, d])), seat)
            }
            &[2, seat, _, _, _, _, _, _] => (Call::Collect, seat),
            &[3, seat, low, high, _, _, _, _] => (
                Call::Take(u16::from_le_bytes([low, high])),
                seat,
            ),
            &[4, seat, _, _, _, _, _, _] => (Call::Show, seat),
            _ => return Err(NoStep),
        };
        Ok(Step { call, seat })
    }
}

// The job of a post.
fn read_job(kind: u8, poster: u8, value: [u8; 4]) -> Result<Job, Refusal>
    ensures { as_answer content_of_job result ≡ job_of_post kind poster value }
{
    match kind {
        1 => Ok(Job::Add(u32::from_le_bytes(value))),
        2 => {
            let [low, high, _, _] = value;
            Job::strike(poster, u16::from_le_bytes([low, high]))
        }
        _ => Err(Refusal::BadRecord),
    }
}
