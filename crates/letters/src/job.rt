// Jobs as bodies of letters.
ghost use Rattle.std.specs.Prelude.{◌≡◌, ◌∷◌, length, None};
ghost use Rattle.letters.specs.declared.job.Job.TheVariants.{Add};
ghost use Rattle.letters.specs.Jobs.{add_wrong, content_of_job, job_bytes, job_form, strike_answer, strike_wrong};
ghost use Rattle.letters.specs.Numbers.{bytes_of_16, padded};
ghost use Rattle.letters.specs.Refusals.{as_answer};
ghost use Rattle.letters.specs.JobsLemmas.{job_lawful};

use crate::body::{BODY_SPACE, Body, padded};
use crate::letter_id::LetterId;
use crate::refusal::Refusal;

// A job to do, with its code, or a strike, which takes one off the list.
#[derive(Clone, Copy)]
pub enum Job {
    // opens the job that has this letter's name
    Add(u32),
    // ends the job of the letter named
    Strike(LetterId),
}

impl Job {
    // The strike of the letter of this poster and number; 20 where the poster is no seat or the number is 0.
    pub fn strike(poster: u8, number: u16) -> Result<Job, Refusal>
        ensures { as_answer content_of_job result ≡ strike_answer poster number }
    {
        let id = LetterId::new(poster, number)?;
        Ok(Job::Strike(id))
    }
}

fn add_bytes(code: u32) -> [u8; BODY_SPACE]
    ensures { result ≡ padded BODY_SPACE (job_bytes (Job.Add code)) }
{
    let [a, b, c, d] = code.to_le_bytes();
    padded(&[1, a, b, c, d])
}

fn strike_bytes(id: LetterId) -> [u8; BODY_SPACE]
    ensures { result ≡ padded BODY_SPACE (job_bytes (Job.Strike id)) }
{
    let [low, high] = id.number().to_le_bytes();
    padded(&[2, id.poster(), low, high])
}

// The first wrong byte of a strike's four, of which the first is right.
fn wrong_name(poster: u8, number: u16) -> Option<u8>
    ensures { result ≡ strike_wrong (2 ∷ poster ∷ bytes_of_16 number) }
{
    if poster >= 16 {
        return Some(1);
    }
    if number == 0 {
        return Some(2);
    }
    None
}

// The addition that five bytes write.
fn read_add(bytes: &[u8]) -> Job
    requires size { length bytes.now ≡ 5 }
    requires right { add_wrong bytes.now ≡ None }
    ensures { job_bytes result ≡ bytes.now }
{
    match bytes {
        [_, a, b, c, d] => Job::Add(u32::from_le_bytes([*a, *b, *c, *d])),
        _ => unreachable(),
    }
}

// The strike that four bytes write.
fn read_strike(bytes: &[u8]) -> Job
    requires size { length bytes.now ≡ 4 }
    requires right { strike_wrong bytes.now ≡ None }
    ensures { job_bytes result ≡ bytes.now }
{
    match bytes {
        [_, poster, low, high] => {
            Job::Strike(LetterId::of(*poster, u16::from_le_bytes([*low, *high])))
        }
        _ => unreachable(),
    }
}

impl Body for Job {
    ghost form = { job_form };

    ghost blank = { Add 0 };

    ghost lawful = { job_lawful };

    fn has_kind(kind: u8) -> bool {
        kind == 2
    }

    fn has_length(_kind: u8, len: u8) -> bool {
        len == 4 || len == 5
    }

    fn wrong(_kind: u8, bytes: &[u8]) -> Option<u8> {
        match bytes {
            [1, _, _, _, _] => None,
            [2, poster, low, high] => wrong_name(*poster, u16::from_le_bytes([*low, *high])),
            _ => Some(0),
        }
    }

    fn read(_kind: u8, bytes: &[u8]) -> Job {
        if bytes.len() == 5 {
            read_add(bytes)
        } else {
            read_strike(bytes)
        }
    }

    fn kind(&self) -> u8 {
        2
    }

    fn len(&self) -> u8 {
        match self {
            Job::Add(_) => 5,
            Job::Strike(_) => 4,
        }
    }

    fn to_bytes(&self) -> [u8; BODY_SPACE] {
        match self {
            Job::Add(code) => add_bytes(*code),
            Job::Strike(id) => strike_bytes(*id),
        }
    }

    fn make_blank() -> Job {
        Job::Add(0)
    }
}
