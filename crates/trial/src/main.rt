// Runs steps on lines, on a spool and on a pair of both, and prints what each of the three answers.
#![tactic(auto)]

ghost use Rattle.std.specs.Prelude.{◌≤◌};

use carriers::carrier::Carrier;
use carriers::lines::Lines;
use letters::job::Job;
use letters::letter::Letter;
use letters::parts::Parts;
use letters::refusal::Refusal;
use letters::stamp::Stamp;
use pair::Pair;
use spool::Spool;
use std::io::Read;
use std::{array, io};

// How many letters and how many bytes there are to bring.
const LETTERS: usize = 64;

const BYTES: usize = 1024;

// What a carrier is asked, as it is read from bytes.
#[derive(Clone, Copy)]
enum Step {
    // puts a letter that adds a job
    Put { poster: u8, number: u16, code: u32 },
    Draw { seat: u8, place: u32 },
    Waits { seat: u8 },
    Fits { poster: u8 },
    Seats,
}

// The step that eight bytes write: the call, a seat, a 16-bit number and a 32-bit one, the low byte first.
impl From<&[u8]> for Step {
    fn from(bytes: &[u8]) -> Step {
        match *bytes {
            [1, poster, low, high, a, b, c, d] => Step::Put {
                poster,
                number: u16::from_le_bytes([low, high]),
                code: u32::from_le_bytes([a, b, c, d]),
            },
            [2, seat, _, _, a, b, c, d] => Step::Draw {
                seat,
                place: u32::from_le_bytes([a, b, c, d]),
            },
            [3, seat, ..] => Step::Waits { seat },
            [4, poster, ..] => Step::Fits { poster },
            _ => Step::Seats,
        }
    }
}

// How the carriers are made.
#[derive(Clone, Copy)]
struct Setting {
    line_seats: u8,
    spool_seats: u8,
    letters: usize,
    size: u32,
    bytes: usize,
}

// Why the trial of a make ends before its steps are done: what is refused is printed, and the next make is tried.
#[derive(Debug, Drop)]
enum Stop {
    Refused(Refusal),
    Failed(io::Error),
}

impl From<Refusal> for Stop {
    fn from(why: Refusal) -> Stop {
        Stop::Refused(why)
    }
}

impl From<io::Error> for Stop {
    fn from(failure: io::Error) -> Stop {
        Stop::Failed(failure)
    }
}

// The setting that ten bytes write, numbers with the low byte first: the seats of the lines, those of the spool, how many
// letters are brought (16 bits), how many places a queue has (32) and how many bytes are brought (16).
impl From<&[u8; 10]> for Setting {
    fn from(head: &[u8; 10]) -> Setting {
        let [line_seats, spool_seats, a, b, c, d, e, f, g, h] = *head;
        Setting {
            line_seats,
            spool_seats,
            letters: usize::from(u16::from_le_bytes([a, b])),
            size: u32::from_le_bytes([c, d, e, f]),
            bytes: usize::from(u16::from_le_bytes([g, h])),
        }
    }
}

impl Setting {
    fn letters_brought(&self) -> usize
        ensures { result ≤ LETTERS }
    {
        self.letters.min(LETTERS)
    }

    fn bytes_brought(&self) -> usize
        ensures { result ≤ BYTES }
    {
        self.bytes.min(BYTES)
    }
}

// A letter whose stamp counts up from its number, seat by seat.
fn make_letter(poster: u8, number: u16, code: u32) -> Result<Letter<Job>, Refusal> {
    let entries = array::from_fn(|seat| number.wrapping_add(seat as u16));
    Letter::new(Parts {
        stamp: Stamp { entries },
        poster,
        body: Job::Add(code),
    })
}

fn print_answer(rt: &HostRuntime, word: &str, answer: Result<(), Refusal>) -> io::Result<()> {
    match answer {
        Ok(()) => println!(rt; "{word}"),
        Err(why) => println!(rt; "refused {why}"),
    }
}

fn print_parts(rt: &HostRuntime, parts: &Parts<Job>) -> io::Result<()> {
    let poster = parts.poster;
    print!(rt; "page {poster}")?;
    for entry in &parts.stamp.entries {
        print!(rt; " {entry}")?;
    }
    match parts.body {
        Job::Add(code) => println!(rt; " add {code}"),
        Job::Strike(_) => println!(rt; " strike"),
    }
}

fn put<C: Carrier<Body = Job>>(
    carrier: &mut C,
    poster: u8,
    number: u16,
    code: u32,
) -> Result<(), Refusal> {
    let letter = make_letter(poster, number, code)?;
    carrier.put(&letter)
}

fn take_step<C: Carrier<Body = Job>>(
    rt: &HostRuntime,
    carrier: &mut C,
    parts: &mut Parts<Job>,
    step: Step,
) -> io::Result<()> {
    match step {
        Step::Put {
            poster,
            number,
            code,
        } => print_answer(rt, "put", put(carrier, poster, number, code)),
        Step::Draw { seat, place } => {
            print_answer(rt, "drawn", carrier.draw(seat, place, parts))?;
            print_parts(rt, parts)
        }
        Step::Waits { seat } => {
            let waits = carrier.waits(seat);
            println!(rt; "waits {waits}")
        }
        Step::Fits { poster } => {
            let fits = carrier.fits(poster);
            println!(rt; "fits {fits}")
        }
        Step::Seats => {
            let seats = carrier.seats();
            println!(rt; "seats {seats}")
        }
    }
}

// Prints what a make was refused for; a failure to print ends the program.
fn settle(rt: &HostRuntime, tried: Result<(), Stop>) -> io::Result<()> {
    match tried {
        Ok(()) => Ok(()),
        Err(Stop::Refused(why)) => println!(rt; "refused {why}"),
        Err(Stop::Failed(failure)) => Err(failure),
    }
}

// What every make is tried with: where to print, how the carriers are made, and the steps.
#[derive(Drop)]
struct Trial<'a> {
    rt: &'a HostRuntime,
    setting: Setting,
    steps: &'a [u8],
}

impl Trial<'_> {
    fn take_steps<C: Carrier<Body = Job>>(&self, carrier: &mut C) -> io::Result<()> {
        let mut parts = Parts {
            stamp: Stamp { entries: [0; 16] },
            ..Letter::blank(Job::Add(0)).parts()
        };
        for bytes in self.steps.chunks_exact(8) {
            take_step(self.rt, carrier, &mut parts, Step::from(bytes))?;
        }
        Ok(())
    }

    fn try_lines(&self, places: &mut [Letter<Job>]) -> Result<(), Stop> {
        Lines::check(places, self.setting.line_seats, self.setting.size)?;
        let mut lines = Lines::new(places, self.setting.line_seats, self.setting.size);
        self.take_steps(&mut lines)?;
        Ok(())
    }

    fn try_spool(&self, buffer: &mut [u8]) -> Result<(), Stop> {
        Spool::<Job>::check(buffer, self.setting.spool_seats)?;
        let mut spool = Spool::<Job>::new(buffer, self.setting.spool_seats);
        self.take_steps(&mut spool)?;
        Ok(())
    }

    fn try_pair<C: Carrier<Body = Job> + Drop, D: Carrier<Body = Job> + Drop>(
        &self,
        first: C,
        second: D,
    ) -> Result<(), Stop> {
        Pair::check(&first, &second)?;
        let mut pair = Pair::new(first, second);
        self.take_steps(&mut pair)?;
        Ok(())
    }

    // A pair of lines, for cable, and a spool, for mobile data.
    fn try_both(&self, places: &mut [Letter<Job>], buffer: &mut [u8]) -> Result<(), Stop> {
        Lines::check(places, self.setting.line_seats, self.setting.size)?;
        Spool::<Job>::check(buffer, self.setting.spool_seats)?;
        let lines = Lines::new(places, self.setting.line_seats, self.setting.size);
        let spool = Spool::<Job>::new(buffer, self.setting.spool_seats);
        self.try_pair(lines, spool)
    }

    fn on_lines(&self, blank: Letter<Job>) -> io::Result<()> {
        println!(self.rt; "lines")?;
        let mut cable = [blank; LETTERS];
        let places = &mut cable[0..self.setting.letters_brought()];
        settle(self.rt, self.try_lines(places))
    }

    fn on_spool(&self) -> io::Result<()> {
        println!(self.rt; "spool")?;
        let mut mobile = [0; BYTES];
        let buffer = &mut mobile[0..self.setting.bytes_brought()];
        settle(self.rt, self.try_spool(buffer))
    }

    fn on_pair(&self, blank: Letter<Job>) -> io::Result<()> {
        println!(self.rt; "pair")?;
        let mut cable = [blank; LETTERS];
        let mut mobile = [0; BYTES];
        let places = &mut cable[0..self.setting.letters_brought()];
        let buffer = &mut mobile[0..self.setting.bytes_brought()];
        settle(self.rt, self.try_both(places, buffer))
    }

    fn on_all(&self, blank: Letter<Job>) -> io::Result<()> {
        self.on_lines(blank)?;
        self.on_spool()?;
        self.on_pair(blank)
    }
}

fn main(rt: HostRuntime) -> io::Result<()> {
    let mut input = Vec::new(rt.alloc());
    let _count = rt.stdin().read_to_end(&mut input)?;
    match input.as_slice().split_first_chunk() {
        Some((head, steps)) => {
            let trial = Trial {
                rt: &rt,
                setting: Setting::from(head),
                steps,
            };
            trial.on_all(Letter::blank(Job::Add(0)))
        }
        None => Err(io::Error::from(io::ErrorKind::InvalidInput)),
    }
}
