// Reads logs, draws them up or enters them, and prints the sheets: what a model in another language is compared with.
//
// Standard input is blocks, each as long as a letter record. A letter is laid out as in one. A block with 255 in the place of
// the poster draws up the letters since the last such block, and one with 254 there enters them on the sheet as it stands; the
// place of the kind says which sheet: 1 the timeline, 2 the job list.
#![tactic(auto)]

use letters::body::{BODY_SPACE, Body};
use letters::job::Job;
use letters::letter::Letter;
use letters::parts::Parts;
use letters::refusal::Refusal;
use letters::stamp::Stamp;
use letters::text::Text;
use records::record::{BODY_PLACE, KIND_PLACE, LENGTH_PLACE, POSTER_PLACE, RECORD_SIZE};
use sheet_kinds::job_list::JobList;
use sheet_kinds::timeline::Timeline;
use sheets::sheet::{Sheet, draw_up};
use std::io::Read;
use std::{array, io};

// What a block asks for that holds no letter.
enum Order {
    DrawUp,
    Enter,
}

impl Order {
    // None where the block holds a letter.
    fn of(block: &[u8; RECORD_SIZE]) -> Option<Order> {
        match block[POSTER_PLACE] {
            255 => Some(Order::DrawUp),
            254 => Some(Order::Enter),
            _ => None,
        }
    }
}

// The text of a block.
fn text_of(block: &[u8; RECORD_SIZE]) -> Result<Text, Refusal> {
    let len = block[LENGTH_PLACE] as usize;
    if len > BODY_SPACE {
        return Err(Refusal::BadRecord);
    }
    Text::new(&block[BODY_PLACE..BODY_PLACE + len])
}

// The job of a block.
fn job_of(block: &[u8; RECORD_SIZE]) -> Result<Job, Refusal> {
    let body = &block[BODY_PLACE..];
    if body[0] == 1 {
        return Ok(Job::Add(u32::from_le_bytes([body[1], body[2], body[3], body[4]])));
    }
    Job::strike(body[1], u16::from_le_bytes([body[2], body[3]]))
}

// The letter of a block, with this body.
fn letter_of<B: Body>(
    block: &[u8; RECORD_SIZE],
    body: Result<B, Refusal>,
) -> Result<Letter<B>, Refusal> {
    let entries = array::from_fn(|seat| u16::from_le_bytes([block[2 * seat], block[2 * seat + 1]]));
    Letter::new(Parts {
        stamp: Stamp { entries },
        poster: block[POSTER_PLACE],
        body: body?,
    })
}

// Enters letters one by one; the answer is that of the last.
fn enter_all<K: Sheet>(sheet: &mut K, log: &[Letter<K::Body>]) -> Result<(), Refusal> {
    let mut answer = Ok(());
    for letter in log {
        answer = sheet.enter(letter);
    }
    answer
}

fn work<K: Sheet>(sheet: &mut K, log: &[Letter<K::Body>], order: Order) -> Result<(), Refusal> {
    match order {
        Order::DrawUp => draw_up(sheet, log),
        Order::Enter => enter_all(sheet, log),
    }
}

fn print_answer(rt: &HostRuntime, answer: Result<(), Refusal>) -> io::Result<()> {
    match answer {
        Ok(()) => println!(rt; "done"),
        Err(refusal) => println!(rt; "refused {refusal}"),
    }
}

fn print_timeline(rt: &HostRuntime, timeline: &Timeline) -> io::Result<()> {
    println!(rt; "timeline {} {}", timeline.letters(), timeline.pages())?;
    for row in timeline.rows() {
        print!(rt; "{} {}.{} ", row.rank, row.poster, row.number)?;
        rt.write_all(row.text.as_bytes())?;
        println!(rt; "")?;
    }
    Ok(())
}

fn print_jobs(rt: &HostRuntime, list: &JobList) -> io::Result<()> {
    println!(rt; "jobs {}", list.letters())?;
    for job in list.jobs() {
        println!(rt; "{}.{} {}", job.poster, job.number, job.code)?;
    }
    Ok(())
}

// The code of the job of each letter's name.
fn print_codes(rt: &HostRuntime, list: &JobList, log: &[Letter<Job>]) -> io::Result<()> {
    for letter in log {
        match list.code_of(letter.id()) {
            Some(code) => println!(rt; "code {code}")?,
            None => println!(rt; "code none")?,
        }
    }
    Ok(())
}

// Keeps a block's letter for the next order, or says that there is none.
fn keep<B: Body>(
    rt: &HostRuntime,
    log: &mut Vec<Letter<B>>,
    block: &[u8; RECORD_SIZE],
    body: Result<B, Refusal>,
) -> io::Result<()> {
    match letter_of(block, body) {
        Ok(letter) => log.push(letter)?,
        Err(_) => println!(rt; "bad")?,
    }
    Ok(())
}

fn main(rt: HostRuntime) -> io::Result<()> {
    let heap = rt.alloc();
    let mut input = Vec::new(heap);
    rt.stdin().read_to_end(&mut input)?;
    let mut timeline = Timeline::new();
    let mut list = JobList::new();
    let mut texts: Vec<Letter<Text>> = Vec::new(heap);
    let mut jobs: Vec<Letter<Job>> = Vec::new(heap);
    let (blocks, _) = input.as_slice().as_chunks::<RECORD_SIZE>();
    for block in blocks {
        match (Order::of(block), block[KIND_PLACE]) {
            (None, 1) => keep(&rt, &mut texts, block, text_of(block))?,
            (None, _) => keep(&rt, &mut jobs, block, job_of(block))?,
            (Some(order), 1) => {
                print_answer(&rt, work(&mut timeline, texts.as_slice(), order))?;
                print_timeline(&rt, &timeline)?;
                texts.clear();
            }
            (Some(order), _) => {
                print_answer(&rt, work(&mut list, jobs.as_slice(), order))?;
                print_jobs(&rt, &list)?;
                print_codes(&rt, &list, jobs.as_slice())?;
                jobs.clear();
            }
        }
    }
    Ok(())
}
