// Runs a job room on a pair of lines and a spool, by steps of twelve bytes, and prints what each answered, the logs, and the
// job list of each seat. With the argument `calls` it runs scripts of single calls instead.
#![tactic(auto)]

use crate::calls::memory::life::site::scripts::run_scripts;
use carriers::carrier::Carrier;
use carriers::lines::Lines;
use letters::body::Body;
use letters::job::Job;
use letters::letter::Letter;
use letters::refusal::Refusal;
use lives::operation::Operation;
use lives::response::Response;
use pair::Pair;
use rooms::draft::Draft;
use rooms::room::Room;
use rooms::run;
use seats::docket_id::DocketId;
use sheet_kinds::job_list::JobList;
use spool::Spool;
use spool::row_buffer::ROW_SIZE;
use std::alloc::{AllocError, Global};
use std::io::Read;
use std::{env, io};

mod calls;

// How many letters the tables and the queues have, and how many bytes the spool, which has place for 64.
const PLACES: usize = 4096;

const QUEUES: usize = 256;

const BYTES: usize = 64 * ROW_SIZE;

// How the room and its carrier are made.
#[derive(Clone, Copy)]
struct Setting {
    seats: u8,
    quota: u16,
    size: u32,
}

// Why a step or the whole run ends early: a call refuses, or printing fails.
#[derive(Drop)]
enum Stop {
    Refused(Refusal),
    Io(io::Error),
}

impl From<Refusal> for Stop {
    fn from(why: Refusal) -> Stop {
        Stop::Refused(why)
    }
}

impl From<AllocError> for Stop {
    fn from(error: AllocError) -> Stop {
        Stop::Io(io::Error::from(error))
    }
}

impl From<io::Error> for Stop {
    fn from(error: io::Error) -> Stop {
        Stop::Io(error)
    }
}

// Prints the refusal, where there was one.
fn print_refusal(rt: &HostRuntime, ended: Result<(), Stop>) -> io::Result<()> {
    match ended {
        Ok(()) => Ok(()),
        Err(Stop::Refused(why)) => println!(rt; "refused {why}"),
        Err(Stop::Io(error)) => Err(error),
    }
}

// The step that twelve bytes write: the call, a seat, a 16-bit number, a 32-bit one, a poster, and zeros.
// The calls are 1 post an add, 2 post a strike, 3 send, 4 park, 5 collect, 6 take, and show by any other.
fn read_operation(bytes: &[u8]) -> Result<Operation<Job, DocketId>, Refusal> {
    let &[call, seat, low, high, a, b, c, d, poster, ..] = bytes else {
        return Ok(Operation::Show(0));
    };
    let number = u16::from_le_bytes([low, high]);
    let wide = u32::from_le_bytes([a, b, c, d]);
    let docket_id = DocketId {
        room: wide,
        seat,
        number,
    };
    match call {
        1 => Ok(Operation::Post(seat, Job::Add(wide))),
        2 => Ok(Operation::Post(seat, Job::strike(poster, number)?)),
        3 => Ok(Operation::Send(docket_id)),
        4 => Ok(Operation::Park(docket_id)),
        5 => Ok(Operation::Collect(seat)),
        6 => Ok(Operation::Take(seat, wide)),
        _ => Ok(Operation::Show(seat)),
    }
}

fn print_response(rt: &HostRuntime, response: Response<DocketId>) -> io::Result<()> {
    match response {
        Response::Docket(DocketId { room, seat, number }) => println!(rt;
            "docket {room} {seat} {number}"
        ),
        Response::Done => println!(rt; "done"),
        Response::Taken(taken) => println!(rt; "{taken}"),
        Response::Shown(id) => println!(rt; "shown {id}"),
    }
}

// The steps that the bytes write, without those that cannot be read.
fn read_operations(
    alloc: Global,
    steps: &[u8],
) -> Result<Vec<Operation<Job, DocketId>>, AllocError> {
    let mut asked = Vec::new(alloc);
    for bytes in steps.chunks_exact(12) {
        if let Ok(step) = read_operation(bytes) {
            asked.push(step)?;
        }
    }
    Ok(asked)
}

// Places for so many responses.
fn no_responses(
    alloc: Global,
    count: usize,
) -> Result<Vec<Result<Response<DocketId>, Refusal>>, AllocError> {
    let mut responses = Vec::new(alloc);
    for _ in 0..count {
        responses.push(Err(Refusal::TooShort))?;
    }
    Ok(responses)
}

// Prints what each step answered, and the refusals of those that cannot be read between them.
fn print_responses(
    rt: &HostRuntime,
    steps: &[u8],
    responses: &[Result<Response<DocketId>, Refusal>],
) -> io::Result<()> {
    let mut answered = responses.iter();
    for bytes in steps.chunks_exact(12) {
        let response = match read_operation(bytes) {
            Ok(_) => *answered.next().unwrap_or(&Err(Refusal::TooShort)),
            Err(why) => Err(why),
        };
        match response {
            Ok(response) => print_response(rt, response)?,
            Err(why) => println!(rt; "refused {why}")?,
        }
    }
    Ok(())
}

// A room in which steps were made, with the tables that are brought to its calls.
#[derive(Drop)]
struct Session<'t> {
    room: Room,
    logs: &'t mut [Letter<Job>],
    holds: &'t mut [Letter<Job>],
}

impl Session<'_> {
    fn print_log(&self, rt: &HostRuntime, seat: u8) -> io::Result<()> {
        print!(rt; "log {seat}")?;
        if let Ok(log) = self.room.log(self.logs, self.holds, seat) {
            for letter in log {
                print!(rt; " {}", letter.id())?;
            }
        }
        println!(rt; "")
    }

    fn print_jobs(&self, rt: &HostRuntime, seat: u8) -> Result<(), Stop> {
        let mut sheet = JobList::new();
        self.room.draw_up(self.logs, self.holds, seat, &mut sheet)?;
        print!(rt; "jobs {seat}")?;
        for job in sheet.jobs() {
            print!(rt; " {}.{}={}", job.poster, job.number, job.code)?;
        }
        println!(rt; "")?;
        Ok(())
    }

    fn print_seats(&self, rt: &HostRuntime, seats: u8) -> io::Result<()> {
        for seat in 0..seats {
            self.print_log(rt, seat)?;
            print_refusal(rt, self.print_jobs(rt, seat))?;
        }
        Ok(())
    }
}

fn live_on_pair<C: Carrier<Body = Job> + Drop, D: Carrier<Body = Job> + Drop>(
    rt: &HostRuntime,
    draft: Draft,
    seats: u8,
    first: C,
    second: D,
    blank: Letter<Job>,
    steps: &[u8],
) -> Result<(), Stop> {
    Pair::check(&first, &second)?;
    let mut pair = Pair::new(first, second);
    let mut logs = [blank; PLACES];
    let mut holds = [blank; PLACES];
    let asked = read_operations(rt.alloc(), steps)?;
    let mut responses = no_responses(rt.alloc(), asked.len())?;
    run::check(
        &draft,
        &logs,
        &holds,
        &pair,
        asked.as_slice(),
        responses.as_slice(),
    )?;
    let ended = run::run::<Job, Pair<C, D>, JobList>(
        draft,
        &mut logs,
        &mut holds,
        &mut pair,
        asked.as_slice(),
        responses.as_mut_slice(),
    );
    let room = ended.park_all();
    print_responses(rt, steps, responses.as_slice())?;
    let session = Session {
        room,
        logs: &mut logs,
        holds: &mut holds,
    };
    session.print_seats(rt, seats)?;
    Ok(())
}

// Enrols so many boxes.
fn enrol_all(draft: &mut Draft, seats: u8) -> Result<(), Refusal> {
    // A name is the value itself.
    for name in 100..100 + seats as u32 {
        draft.enrol(name)?;
    }
    Ok(())
}

fn live(rt: &HostRuntime, setting: Setting, steps: &[u8]) -> Result<(), Stop> {
    let blank = Letter::blank(Job::Add(0));
    let mut queues = [blank; QUEUES];
    let mut bytes = [0; BYTES];
    Draft::check(setting.quota)?;
    let mut draft = Draft::new(7, setting.quota);
    enrol_all(&mut draft, setting.seats)?;
    Lines::check(&queues, setting.seats, setting.size)?;
    Spool::<Job>::check(&bytes, setting.seats)?;
    let lines = Lines::new(&mut queues, setting.seats, setting.size);
    let spool = Spool::<Job>::new(&mut bytes, setting.seats);
    live_on_pair(rt, draft, setting.seats, lines, spool, blank, steps)
}

// Whether the one argument asks for scripts of calls.
fn asks_for_calls(rt: &HostRuntime) -> bool {
    let Ok(args) = env::args(rt) else {
        return false;
    };
    let mut args = args;
    let _program = args.next();
    match args.next() {
        Some(word) => word.as_str() == "calls",
        None => false,
    }
}

// The input begins with four bytes: seats, quota (16 bits, the low byte first), places of a queue. The steps follow.
fn main(rt: HostRuntime) -> io::Result<()> {
    let mut input = Vec::new(rt.alloc());
    let _ = rt.stdin().read_to_end(&mut input)?;
    if asks_for_calls(&rt) {
        return run_scripts(rt.alloc(), input.as_slice(), &mut io::writer(&rt));
    }
    let &[seats, low, high, size, ref steps @ ..] = input.as_slice() else {
        return Ok(());
    };
    let setting = Setting {
        seats,
        quota: u16::from_le_bytes([low, high]),
        size: size as u32,
    };
    print_refusal(&rt, live(&rt, setting, steps))
}
