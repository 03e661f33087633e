// A box to try: a job room of three seats on lines.
#![tactic(auto)]

ghost use Rattle.std.specs.Prelude.{◌≡◌, ◌↔◌, ◌<◌, ◌≤◌, Err, OnOk, []};
ghost use Rattle.std.specs.Io.KnownBytes.{Appends};
ghost use Rattle.carriers.specs.Lines.{lines_of};
ghost use Rattle.lives.specs.Reachability.{Reachable};
ghost use Rattle.branch.specs.declared.failure.Failure.TheVariants.{Usage};
ghost use Rattle.branch.specs.Sessions.{JustOpened, all_log_lines, configuration_at};
ghost use Rattle.branch.specs.Driving.{SessionPrint};
ghost use Rattle.branch.specs.Program.{Finished};

use crate::failure::Failure;
use crate::line::add_log;
use crate::session::Session;
use carriers::carrier::Carrier;
use carriers::lines::Lines;
use chunks::fill;
use letters::job::Job;
use letters::letter::Letter;
use rooms::draft::Draft;
use sheet_kinds::job_list::JobList;
use sheets::sheet::Sheet;
use std::alloc::Global;
use std::env::{Env, FillError};
use std::io;
use std::io::{Read, Write};
use std::process::ExitCode;

mod failure;
mod line;
mod outcome;
mod reading;
mod session;
mod step;

// How many bytes are held at a time: whole steps.
const CHUNK: usize = 512;

// Makes the steps of an input of any length, chunk by chunk, and writes their lines, and nothing else.
fn drive<C: Carrier<Body = Job>, R: Read, W: Write>(
    alloc: Global,
    input: &mut R,
    output: &mut W,
    session: &mut Session<'_, '_, C>,
) -> io::Result<()>
    ensures { OnOk result (SessionPrint C.Carrier (R.remaining input.old) session.old (W.contents output.old) (W.contents output.new) session.new) }
{
    let mut held = [0; CHUNK];
    let mut lines = String::new(alloc);
    let mut index = 0;
    // The bound is there only because every loop has to end.
    for _ in 0..u64::MAX {
        lines.clear();
        let read = fill(input, &mut held)?;
        let made = session.make_steps(&held[..read], &mut index, &mut lines)?;
        output.write_all(lines.as_bytes())?;
        if made.is_err() || read < CHUNK {
            return Ok(());
        }
    }
    Err(io::Error::from(io::ErrorKind::InvalidInput))
}

// Prints the logs of all seats.
fn print_logs<C, W: Write>(
    alloc: Global,
    output: &mut W,
    session: &Session<'_, '_, C>,
) -> io::Result<()>
    ensures { OnOk result (Appends (W.contents output.old) (W.contents output.new) (all_log_lines session.now)) }
{
    let mut lines = String::new(alloc);
    // No room has more seats, and a seat that this one lacks has no log.
    for seat in 0..16 {
        if let Ok(log) = session.room.log(session.logs, session.holds, seat) {
            add_log(&mut lines, seat, log)?;
        }
    }
    output.write_all(lines.as_bytes())
}

// Opens a room of three seats and quota 4 over these tables, on lines with four places for each seat.
fn open_room<'l, 'h, 'q>(
    logs: &'l mut [Letter<Job>; 36],
    holds: &'h mut [Letter<Job>; 36],
    queues: &'q mut [Letter<Job>; 12],
) -> Session<'l, 'h, Lines<'q, Job>>
    ensures opened { JustOpened result }
    ensures tables { (result.logs.now ≡ logs.old) × (result.holds.now ≡ holds.old) }
    ensures reachable { Reachable [] (configuration_at lines_of result) }
{
    let mut draft = Draft::new(1, 4);
    // Names are any numbers but 0. A refusal would show at the opening.
    let _ = draft.enrol(1);
    let _ = draft.enrol(2);
    let _ = draft.enrol(3);
    let carrier = Lines::new(queues, 3, 4);
    let room = draft.open(logs, holds, &carrier);
    Session {
        room,
        logs,
        holds,
        carrier,
    }
}

// The program: opens the room, makes the steps of the input, and writes their lines and then the logs. The logs are in causal
// order, they are complete where nothing is on its way, and logs of the same letters make the same sheet, of every kind that
// has jobs.
fn run<K: Sheet<Body = Job>, R: Read, W: Write>(
    alloc: Global,
    input: &mut R,
    output: &mut W,
) -> io::Result<()>
    ensures { OnOk result (Finished K.Sheet.kind (R.remaining input.old) (W.contents output.old) (W.contents output.new)) }
{
    let blank = Letter::blank(Job::Add(0));
    let mut logs = [blank; 36];
    let mut holds = [blank; 36];
    let mut queues = [blank; 12];
    let mut session = open_room(&mut logs, &mut holds, &mut queues);
    drive(alloc, input, output, &mut session)?;
    print_logs(alloc, output, &session)
}

// The program as it was called, with so many words, of which the first is its name. It takes no arguments: where a second word
// stands, nothing is read or written.
fn run_without_arguments<K: Sheet<Body = Job>, R: Read, W: Write>(
    alloc: Global,
    words: usize,
    input: &mut R,
    output: &mut W,
) -> Result<(), Failure>
    ensures alone { words ≤ 1 → OnOk result (Finished K.Sheet.kind (R.remaining input.old) (W.contents output.old) (W.contents output.new)) }
    ensures usage { (result ≡ Err Usage) ↔ 1 < words }
    ensures untouched { 1 < words → (input.new ≡ input.old) × (output.new ≡ output.old) }
{
    if 1 < words {
        return Err(Failure::Usage);
    }
    Ok(run::<K, _, _>(alloc, input, output)?)
}

// How many words the program was called with. They need not be text.
fn count_words(rt: &HostRuntime) -> usize {
    for index in 0..usize::MAX {
        if let Err(FillError::NotPresent) = rt.arg(index, &mut []) {
            return index;
        }
    }
    usize::MAX
}

// A failure is printed on the standard error, and ends the program with status 1.
fn main(rt: HostRuntime) -> io::Result<ExitCode> {
    let words = count_words(&rt);
    let (input, output) = (&mut rt.stdin(), &mut io::writer(&rt));
    match run_without_arguments::<JobList, _, _>(rt.alloc(), words, input, output) {
        Ok(()) => Ok(ExitCode::SUCCESS),
        Err(Failure::Usage) => {
            let _ = eprintln!(rt; "usage: branch < STEPS (it takes no arguments)");
            Ok(ExitCode::FAILURE)
        }
        Err(Failure::Io(why)) => Err(why),
    }
}
