// Works a room of sixteen seats over a carrier, part after part, and prints the results: tests/bench/count.py counts
// the instructions of each part.
#![tactic(auto)]

ghost use Rattle.std.specs.Prelude.{◌≡◌, ◌*◌, true};
ghost use Rattle.seats.specs.Outcomes.{good_docket};
ghost use Rattle.rooms.specs.States.{id_of, state};

use carriers::carrier::Carrier;
use carriers::lines::Lines;
use letters::body::Body;
use letters::job::Job;
use letters::letter::Letter;
use letters::refusal::Refusal;
use letters::text::{LONGEST_TEXT, Text};
use pair::Pair;
use rooms::docket::{Docket, Returned};
use rooms::draft::Draft;
use rooms::room::Room;
use seats::take_outcome::TakeOutcome;
use sheet_kinds::job_list::JobList;
use sheet_kinds::timeline::Timeline;
use sheets::sheet::Sheet;
use spool::Spool;
use spool::row_buffer::ROW_SIZE;
use std::alloc::AllocError;
use std::io;
use std::io::Read;
use std::mem::size_of;

const SEATS: usize = 16;

// How many letters a seat may post, in a room with jobs and in one with texts.
const JOB_QUOTA: u16 = 8;

const TEXT_QUOTA: u16 = 16;

// How many letters each of the two rooms has.
const JOBS: usize = SEATS * JOB_QUOTA as usize;

const TEXTS: usize = SEATS * TEXT_QUOTA as usize;

// How many letters a room has at the most.
const MOST_LETTERS: u32 = 256;

// The texts are fronts of this one, of so many characters or more.
const SAYING: &[u8; LONGEST_TEXT] = b"The boiler in the cellar is out again; please bring a light.";

const SHORTEST_FRONT: usize = 20;

#[derive(Clone, Copy)]
enum Make {
    Lines,
    Spool,
    Pair,
}

// What is run: the room's quota, the make of its carrier, and how many of the five parts, which are opening, posting and
// sending, taking, showing and drawing up.
#[derive(Clone, Copy)]
struct Setting {
    quota: u16,
    make: Make,
    parts: u8,
}

impl Setting {
    // How many letters the room has.
    fn letters(&self) -> usize
        ensures { result ≡ SEATS * self.now.quota }
    {
        SEATS * self.quota as usize
    }
}

// The results of the parts.
#[derive(Clone, Copy, Default)]
struct Tally {
    seats: u32,
    sent: u32,
    held: u32,
    repeats: u32,
    shown: u32,
    entered: u32,
}

// Why a run ends early: a call refuses, or memory or printing fails.
#[derive(Drop)]
enum Stop {
    Refused(Refusal),
    Io(io::Error),
}

impl From<Refusal> for Stop {
    fn from(why: Refusal) -> Stop {
        Stop::Refused(why)
    }
}

impl From<io::Error> for Stop {
    fn from(error: io::Error) -> Stop {
        Stop::Io(error)
    }
}

impl From<AllocError> for Stop {
    fn from(error: AllocError) -> Stop {
        Stop::Io(io::Error::from(error))
    }
}

// A room at work, with the tables and the carrier that are brought to its calls.
#[derive(Drop)]
struct Session<'t, B, C> {
    room: Room,
    logs: &'t mut [Letter<B>],
    holds: &'t mut [Letter<B>],
    carrier: C,
}

impl<B: Body, C: Carrier<Body = B>> Session<'_, B, C> {
    // Each seat in turn posts the next of its letters, which is sent at once.
    fn post_all(&mut self, bodies: &[B]) -> Result<u32, Refusal> {
        let mut sent: u32 = 0;
        for turn in bodies.chunks_exact(SEATS) {
            for (seat, body) in turn.iter().enumerate() {
                self.post(seat as u8, *body)?;
                sent = sent.wrapping_add(1);
            }
        }
        Ok(sent)
    }

    fn post(&mut self, seat: u8, body: B) -> Result<(), Refusal> {
        let holds = &mut *self.holds;
        let docket = self.room.post(self.logs, holds, seat, body)?;
        self.send(docket)
    }

    // Sends a docket that is out at the room; where that is refused, it is parked.
    fn send(&mut self, docket: Docket) -> Result<(), Refusal>
        requires { good_docket (state self.old.room) (id_of docket) ≡ true }
    {
        let logs = &mut *self.logs;
        let holds = &mut *self.holds;
        match self.room.send(logs, holds, &mut self.carrier, docket) {
            Ok(()) => Ok(()),
            Err(Returned { docket, refusal }) => {
                self.room.park(docket).unwrap();
                Err(refusal)
            }
        }
    }

    // Each seat takes what waits for it, the last letter first.
    fn take_all(&mut self, tally: &mut Tally) -> Result<(), Refusal> {
        for seat in 0..SEATS as u8 {
            for place in (0..self.carrier.waits(seat)).rev() {
                match self.take(seat, place)? {
                    TakeOutcome::Held(_) => tally.held = tally.held.wrapping_add(1),
                    TakeOutcome::Repeat(_) => tally.repeats = tally.repeats.wrapping_add(1),
                    TakeOutcome::Stray(_) => {}
                }
            }
        }
        Ok(())
    }

    fn take(&mut self, seat: u8, place: u32) -> Result<TakeOutcome, Refusal> {
        let logs = &mut *self.logs;
        self.room
            .take(logs, self.holds, &mut self.carrier, seat, place)
    }

    // Each seat shows letters until none is ready.
    fn show_all(&mut self) -> u32 {
        let mut shown: u32 = 0;
        for seat in 0..SEATS as u8 {
            shown = shown.wrapping_add(self.show(seat));
        }
        shown
    }

    // How many letters a seat shows until none is ready; it cannot hold more than a room has.
    fn show(&mut self, seat: u8) -> u32 {
        for shown in 0..MOST_LETTERS + 1 {
            if self.room.show(self.logs, self.holds, seat).is_err() {
                return shown;
            }
        }
        MOST_LETTERS + 1
    }

    // Draws up the log of each seat on the sheet.
    fn draw_up_all<K: Sheet<Body = B>>(&self, sheet: &mut K) -> Result<u32, Refusal> {
        let mut entered: u32 = 0;
        for seat in 0..SEATS as u8 {
            self.room.draw_up(self.logs, self.holds, seat, sheet)?;
            entered = entered.wrapping_add(sheet.letters());
        }
        Ok(entered)
    }

    // The parts after the opening.
    fn work<K: Sheet<Body = B>>(
        &mut self,
        parts: u8,
        bodies: &[B],
        sheet: &mut K,
        tally: &mut Tally,
    ) -> Result<(), Refusal> {
        if parts > 1 {
            tally.sent = self.post_all(bodies)?;
        }
        if parts > 2 {
            self.take_all(tally)?;
        }
        if parts > 3 {
            tally.shown = self.show_all();
        }
        if parts > 4 {
            tally.entered = self.draw_up_all(sheet)?;
        }
        Ok(())
    }
}

// Enrols a box for each seat. A name is the value itself.
fn enrol_all(draft: &mut Draft) -> Result<(), Refusal> {
    for name in 100..100 + SEATS as u32 {
        draft.enrol(name)?;
    }
    Ok(())
}

// Does so many parts over the carrier.
fn work_over<B: Body, C: Carrier<Body = B> + Drop, K: Sheet<Body = B>>(
    rt: &HostRuntime,
    setting: Setting,
    carrier: C,
    blank: Letter<B>,
    bodies: &[B],
    sheet: &mut K,
) -> Result<Tally, Stop> {
    let places = SEATS * setting.letters();
    let mut logs = vec![in rt.alloc(); blank; places]?;
    let mut holds = vec![in rt.alloc(); blank; places]?;
    let mut tally = Tally::default();
    if setting.parts > 0 {
        Draft::check(setting.quota)?;
        let mut draft = Draft::new(7, setting.quota);
        enrol_all(&mut draft)?;
        draft.check_open(&logs, &holds, &carrier)?;
        let room = draft.open(&logs, &holds, &carrier);
        tally.seats = carrier.seats() as u32;
        let mut session = Session {
            room,
            logs: &mut logs,
            holds: &mut holds,
            carrier,
        };
        session.work(setting.parts, bodies, sheet, &mut tally)?;
    }
    Ok(tally)
}

fn work_over_pair<
    B: Body,
    C: Carrier<Body = B> + Drop,
    D: Carrier<Body = B> + Drop,
    K: Sheet<Body = B>,
>(
    rt: &HostRuntime,
    setting: Setting,
    first: C,
    second: D,
    blank: Letter<B>,
    bodies: &[B],
    sheet: &mut K,
) -> Result<Tally, Stop> {
    Pair::check(&first, &second)?;
    work_over(rt, setting, Pair::new(first, second), blank, bodies, sheet)
}

// Makes the carrier, with place for all letters, and does the parts over it.
fn run<B: Body, K: Sheet<Body = B>>(
    rt: &HostRuntime,
    setting: Setting,
    blank: Letter<B>,
    bodies: &[B],
    sheet: &mut K,
) -> Result<Tally, Stop> {
    let letters = setting.letters();
    let seats = SEATS as u8;
    let size = letters as u32;
    let mut queues = vec![in rt.alloc(); blank; SEATS * letters]?;
    let mut rows = vec![in rt.alloc(); 0; ROW_SIZE * letters]?;
    Lines::check(&queues, seats, size)?;
    Spool::<B>::check(&rows, seats)?;
    let lines = Lines::new(&mut queues, seats, size);
    let spool = Spool::<B>::new(&mut rows, seats);
    match setting.make {
        Make::Lines => work_over(rt, setting, lines, blank, bodies, sheet),
        Make::Spool => work_over(rt, setting, spool, blank, bodies, sheet),
        Make::Pair => work_over_pair(rt, setting, lines, spool, blank, bodies, sheet),
    }
}

// The job that is posted at a place in the order of posts: each fourth of a seat strikes the one before it.
fn make_job(at: u16) -> Result<Job, Refusal> {
    let turn = at / SEATS as u16;
    let seat = at % SEATS as u16;
    if turn % 4 == 3 {
        return Job::strike(seat as u8, turn);
    }
    Ok(Job::Add(at as u32))
}

// The text that is posted there.
fn make_text(at: u16) -> Result<Text, Refusal> {
    let len = SHORTEST_FRONT + at as usize % (LONGEST_TEXT - SHORTEST_FRONT + 1);
    Text::new(&SAYING[..len])
}

fn print_tally(rt: &HostRuntime, tally: Tally) -> io::Result<()> {
    let Tally {
        seats,
        sent,
        held,
        repeats,
        shown,
        entered,
    } = tally;
    println!(rt;
        "seats {seats} sent {sent} held {held} repeats {repeats} shown {shown} entered {entered}"
    )
}

// A sum to which a number is added.
fn mixed(sum: u32, number: u32) -> u32 {
    sum.wrapping_mul(31).wrapping_add(number)
}

fn run_jobs(rt: &HostRuntime, make: Make, parts: u8) -> Result<(), Stop> {
    let setting = Setting {
        quota: JOB_QUOTA,
        make,
        parts,
    };
    let mut bodies = [Job::Add(0); JOBS];
    for (at, body) in (0..JOBS as u16).zip(bodies.iter_mut()) {
        *body = make_job(at)?;
    }
    let mut list = JobList::new();
    let blank = Letter::blank(Job::Add(0));
    let tally = run(rt, setting, blank, &bodies, &mut list)?;
    print_tally(rt, tally)?;
    let mut sum = 0;
    for job in list.jobs() {
        sum = mixed(
            mixed(mixed(sum, job.poster as u32), job.number as u32),
            job.code,
        );
    }
    println!(rt; "jobs {} sum {sum}", list.jobs().len())?;
    Ok(())
}

fn run_texts(rt: &HostRuntime, make: Make, parts: u8) -> Result<(), Stop> {
    let setting = Setting {
        quota: TEXT_QUOTA,
        make,
        parts,
    };
    let mut bodies = [Text::default(); TEXTS];
    for (at, body) in (0..TEXTS as u16).zip(bodies.iter_mut()) {
        *body = make_text(at)?;
    }
    let mut timeline = Timeline::new();
    let blank = Letter::blank(Text::default());
    let tally = run(rt, setting, blank, &bodies, &mut timeline)?;
    print_tally(rt, tally)?;
    let mut sum = 0;
    for row in timeline.rows() {
        let len = row.text.as_bytes().len() as u32;
        sum = mixed(
            mixed(
                mixed(mixed(sum, row.rank), row.poster as u32),
                row.number as u32,
            ),
            len,
        );
    }
    println!(rt; "rows {} sum {sum}", timeline.rows().len())?;
    Ok(())
}

// How many bytes each thing has that a room works with.
fn print_sizes(rt: &HostRuntime) -> io::Result<()> {
    println!(rt; "draft {}", size_of::<Draft>())?;
    println!(rt; "room {}", size_of::<Room>())?;
    println!(rt; "lines {}", size_of::<Lines<Job>>())?;
    println!(rt; "spool {}", size_of::<Spool<Job>>())?;
    println!(rt;
        "pair of both {}",
        size_of::<Pair<Lines<Job>, Spool<Job>>>()
    )?;
    println!(rt; "job list {}", size_of::<JobList>())?;
    println!(rt; "timeline {}", size_of::<Timeline>())?;
    println!(rt; "letter with a job {}", size_of::<Letter<Job>>())?;
    println!(rt; "letter with a text {}", size_of::<Letter<Text>>())
}

// Three letters: l, s or p for lines, a spool or a pair; j or t for jobs or texts; the number of parts, 0 to 5. With none of
// them it prints the sizes.
fn main(rt: HostRuntime) -> io::Result<()> {
    let mut input = Vec::new(rt.alloc());
    rt.stdin().read_to_end(&mut input)?;
    let &[make, load, parts, ..] = input.as_slice() else {
        return print_sizes(&rt);
    };
    let make = match make {
        b'l' => Make::Lines,
        b's' => Make::Spool,
        _ => Make::Pair,
    };
    let parts = parts.wrapping_sub(b'0');
    let ended = if load == b'j' {
        run_jobs(&rt, make, parts)
    } else {
        run_texts(&rt, make, parts)
    };
    match ended {
        Ok(()) => Ok(()),
        Err(Stop::Refused(why)) => println!(rt; "refused {why}"),
        Err(Stop::Io(error)) => Err(error),
    }
}
