// Two rooms, and the calls that are made on them and on what is brought to them.
use crate::calls::memory::life::Life;
use crate::calls::memory::{ScriptSheet, Tables, add_answer, add_log, add_parts, front, front_mut};
use crate::calls::{
    AnswerLine, Asked, AtRoom, OnFile, ScriptBody, ScriptCall, WithLetter, byte_sum, letter_sum,
};
use carriers::carrier::Carrier;
use carriers::lines::Lines;
use delivery::{over_lines, put_and_draw};
use letters::job::Job;
use letters::letter::Letter;
use letters::letter_id::LetterId;
use letters::parts::Parts;
use letters::refusal::Refusal;
use letters::stamp::Stamp;
use letters::text::Text;
use lives::operation::Operation;
use lives::response::Response;
use pair::Pair;
use records::fault::Fault;
use records::file::{load, save};
use records::load_refusal::LoadRefusal;
use records::reader::Reader;
use records::record::read_record;
use rooms::run;
use seats::docket_id::DocketId;
use sheets::sheet::draw_up;
use spool::Spool;
use std::alloc::{AllocError, Global};

pub mod scripts;

const FILE_SIZE: usize = 4096;

// Two rooms, and what can be brought to them.
#[derive(Drop)]
struct Site<B, C, K> {
    alloc: Global,
    first: Life,
    second: Life,
    sets: Vec<Tables<B>>,
    carriers: Vec<C>,
    file: Vec<u8>,
    sheet: K,
    parts: Parts<B>,
}

fn make_name(call: &ScriptCall) -> AnswerLine {
    match LetterId::new(call.struck, call.struck_number) {
        Ok(id) => AnswerLine::Name(id),
        Err(why) => AnswerLine::Refused(why),
    }
}

impl<B: ScriptBody, C: Carrier<Body = B> + Drop, K: ScriptSheet<Body = B> + Drop> Site<B, C, K> {
    // Everything as it is before the first call.
    fn new(
        alloc: Global,
        places: usize,
        blank: Letter<B>,
        carriers: Vec<C>,
        sheet: K,
    ) -> Result<Site<B, C, K>, AllocError> {
        let sets = vec![in alloc;
            Tables::new(alloc, places, blank)?,
            Tables::new(alloc, places, blank)?,
        ]?;
        Ok(Site {
            alloc,
            first: Life::new(),
            second: Life::new(),
            sets,
            carriers,
            file: vec![in alloc; 0; FILE_SIZE]?,
            sheet,
            parts: Parts {
                stamp: Stamp { entries: [9; 16] },
                poster: 9,
                ..blank.parts()
            },
        })
    }

    // Makes a call and adds its lines.
    fn make(&mut self, call: &ScriptCall, lines: &mut String) -> Result<(), AllocError> {
        match call.asked {
            Asked::AtRoom(asked) => {
                let answer = self.make_at_room(asked, call);
                add_answer(lines, answer)
            }
            Asked::DrawUp => self.draw_up(call, lines),
            Asked::Log => self.read_log(call, lines),
            Asked::Pages => add_answer(lines, self.count_pages(call)),
            Asked::Look => self.look(call, lines),
            Asked::WithLetter(asked) => match call.letter() {
                Ok(letter) => self.make_with(asked, call, &letter, lines),
                Err(why) => add_answer(lines, AnswerLine::Refused(why)),
            },
            Asked::Draw => self.draw(call, lines),
            Asked::MakeText => add_answer(lines, AnswerLine::of(Text::brought(call))),
            Asked::MakeName => add_answer(lines, make_name(call)),
            Asked::MakeStrike => {
                let strike = Job::strike(call.struck, call.struck_number);
                add_answer(lines, AnswerLine::of(strike))
            }
            Asked::CheckLines => add_answer(lines, self.check_lines(call)),
            Asked::CheckSpool => add_answer(lines, self.check_spool(call)),
            Asked::CheckPair => add_answer(lines, self.check_pair(call)),
            Asked::OnFile(asked) => self.use_file(asked, call, lines),
            Asked::CheckRun => {
                let answer = self.check_run(call)?;
                add_answer(lines, answer)
            }
            Asked::DrawUpList => self.draw_up_list(call, lines),
            Asked::ClearSheet => {
                self.sheet.clear();
                add_answer(lines, AnswerLine::Done)
            }
            Asked::ShowSheet => self.sheet.add_lines(lines),
            Asked::Nothing => add_answer(lines, AnswerLine::Unfit),
        }
    }

    // Asks what can be asked of the tables and a carrier.
    fn look(&self, call: &ScriptCall, lines: &mut String) -> Result<(), AllocError> {
        if let Some(tables) = self.sets.get(call.set) {
            tables.add_sums(lines)?;
        }
        if let Some(carrier) = self.carriers.get(call.carrier) {
            write!(lines, "carrier {} waits", carrier.seats())?;
            for seat in 0..17 {
                write!(lines, " {}", carrier.waits(seat))?;
            }
            write!(lines, " fits")?;
            for seat in 0..17 {
                write!(lines, " {}", u8::from(carrier.fits(seat)))?;
            }
            writeln!(lines, "")?;
        }
        Ok(())
    }

    fn draw(&mut self, call: &ScriptCall, lines: &mut String) -> Result<(), AllocError> {
        if let Some(carrier) = self.carriers.get_mut(call.carrier) {
            let answer = carrier.draw(call.seat, call.wide, &mut self.parts);
            add_answer(lines, AnswerLine::of(answer))?;
        }
        add_parts(lines, &self.parts)
    }

    // Asks whether lines can be made of letters.
    fn check_lines(&self, call: &ScriptCall) -> AnswerLine {
        let Some(tables) = self.sets.get(call.set) else {
            return AnswerLine::Unfit;
        };
        let places = front(&tables.logs, call.logs);
        AnswerLine::of(Lines::check(places, call.seat, call.wide))
    }

    // Asks whether a spool can be made of bytes.
    fn check_spool(&self, call: &ScriptCall) -> AnswerLine {
        let bytes = front(&self.file, usize::from(call.number));
        AnswerLine::of(Spool::<B>::check(bytes, call.seat))
    }

    // Asks whether a carrier and the next can be a pair.
    fn check_pair(&self, call: &ScriptCall) -> AnswerLine {
        let Some(first) = self.carriers.get(call.carrier) else {
            return AnswerLine::Unfit;
        };
        match self.carriers.get((call.carrier % 3 + 1) % 3) {
            Some(second) => AnswerLine::of(Pair::check(first, second)),
            None => AnswerLine::Unfit,
        }
    }

    // Draws letters of no room up.
    fn draw_up_list(&mut self, call: &ScriptCall, lines: &mut String) -> Result<(), AllocError> {
        if let Some(tables) = self.sets.get(call.set) {
            let answer = draw_up(&mut self.sheet, front(&tables.logs, call.logs));
            add_answer(lines, AnswerLine::of(answer))?;
        }
        self.sheet.add_lines(lines)
    }
}

// The most steps, and the most responses, of a run that is checked.
const MOST_STEPS: u16 = 8;

// Makes a call at a room; a docket that it brings may be the other room's.
fn make_at<B: ScriptBody, C: Carrier<Body = B>>(
    asked: AtRoom,
    call: &ScriptCall,
    room: &mut Life,
    other: &mut Life,
    logs: &mut [Letter<B>],
    holds: &mut [Letter<B>],
    carrier: &mut C,
) -> AnswerLine {
    let is_own = call.of_second == call.second;
    match asked {
        AtRoom::Draft => room.start(call.wide, call.number),
        AtRoom::Enrol => room.enrol(call.wide),
        AtRoom::Open => room.open(logs, holds, carrier),
        AtRoom::CheckOpen => room.check_open(logs, holds, carrier),
        AtRoom::Post => match B::brought(call) {
            Ok(body) => room.post(call.right, logs, holds, call.seat, body),
            Err(why) => AnswerLine::Refused(why),
        },
        AtRoom::Send if is_own => room.send(call.right, logs, holds, carrier),
        AtRoom::Send => other.send_at(room, call.right, logs, holds, carrier),
        AtRoom::Park if is_own => room.park(call.right),
        AtRoom::Park => other.park_at(room, call.right),
        AtRoom::Collect => room.collect(call.right, call.seat),
        AtRoom::Take => room.take(logs, holds, carrier, call.seat, call.wide),
        AtRoom::Show => room.show(logs, holds, call.seat),
        AtRoom::Close => room.close(),
    }
}

// Draws up a log of a room on the sheet, and adds the sheet's lines.
fn draw_up_at<B: ScriptBody, K: ScriptSheet<Body = B>>(
    room: &Life,
    tables: &Tables<B>,
    sheet: &mut K,
    call: &ScriptCall,
    lines: &mut String,
) -> Result<(), AllocError> {
    let logs = front(&tables.logs, call.logs);
    let holds = front(&tables.holds, call.holds);
    match room.draw_up(logs, holds, call.seat, sheet) {
        Some(answer) => {
            add_answer(lines, AnswerLine::of(answer))?;
            sheet.add_lines(lines)
        }
        None => add_answer(lines, AnswerLine::Unfit),
    }
}

// So many steps; which they are does not matter.
fn some_steps<B: Copy>(
    alloc: Global,
    count: u16,
) -> Result<Vec<Operation<B, DocketId>>, AllocError> {
    let mut steps = Vec::new(alloc);
    for _ in 0..count.min(MOST_STEPS) {
        steps.push(Operation::Show(0))?;
    }
    Ok(steps)
}

// Places for so many responses.
fn some_replies(
    alloc: Global,
    count: u16,
) -> Result<Vec<Result<Response<DocketId>, Refusal>>, AllocError> {
    let mut responses = Vec::new(alloc);
    for _ in 0..count.min(MOST_STEPS) {
        responses.push(Err(Refusal::TooShort))?;
    }
    Ok(responses)
}

impl<B: ScriptBody, C: Carrier<Body = B> + Drop, K: ScriptSheet<Body = B> + Drop> Site<B, C, K> {
    fn make_at_room(&mut self, asked: AtRoom, call: &ScriptCall) -> AnswerLine {
        let Some(tables) = self.sets.get_mut(call.set) else {
            return AnswerLine::Unfit;
        };
        let Some(carrier) = self.carriers.get_mut(call.carrier) else {
            return AnswerLine::Unfit;
        };
        let logs = front_mut(&mut tables.logs, call.logs);
        let holds = front_mut(&mut tables.holds, call.holds);
        let first = &mut self.first;
        let second = &mut self.second;
        if call.second {
            make_at(asked, call, second, first, logs, holds, carrier)
        } else {
            make_at(asked, call, first, second, logs, holds, carrier)
        }
    }

    // The room of a call.
    fn room(&self, call: &ScriptCall) -> &Life {
        if call.second {
            &self.second
        } else {
            &self.first
        }
    }

    // Asks whether the draft can be run by so many steps, with so many responses.
    fn check_run(&self, call: &ScriptCall) -> Result<AnswerLine, AllocError> {
        let steps = some_steps::<B>(self.alloc, call.number)?;
        let responses = some_replies(self.alloc, call.struck_number)?;
        let Some(draft) = self.room(call).draft() else {
            return Ok(AnswerLine::Unfit);
        };
        let Some(tables) = self.sets.get(call.set) else {
            return Ok(AnswerLine::Unfit);
        };
        let Some(carrier) = self.carriers.get(call.carrier) else {
            return Ok(AnswerLine::Unfit);
        };
        let logs = front(&tables.logs, call.logs);
        let holds = front(&tables.holds, call.holds);
        let answer = run::check(
            draft,
            logs,
            holds,
            carrier,
            steps.as_slice(),
            responses.as_slice(),
        );
        Ok(AnswerLine::of(answer))
    }

    fn draw_up(&mut self, call: &ScriptCall, lines: &mut String) -> Result<(), AllocError> {
        let Some(tables) = self.sets.get(call.set) else {
            return Ok(());
        };
        if call.second {
            draw_up_at(&self.second, tables, &mut self.sheet, call, lines)
        } else {
            draw_up_at(&self.first, tables, &mut self.sheet, call, lines)
        }
    }

    fn read_log(&self, call: &ScriptCall, lines: &mut String) -> Result<(), AllocError> {
        let Some(tables) = self.sets.get(call.set) else {
            return Ok(());
        };
        let logs = front(&tables.logs, call.logs);
        let holds = front(&tables.holds, call.holds);
        match self.room(call).log(logs, holds, call.seat) {
            Some(Ok(log)) => add_log(lines, log),
            Some(Err(why)) => add_answer(lines, AnswerLine::Refused(why)),
            None => add_answer(lines, AnswerLine::Unfit),
        }
    }

    fn count_pages(&self, call: &ScriptCall) -> AnswerLine {
        match self.room(call).pages(call.seat) {
            Some(Ok(pages)) => AnswerLine::Pages(pages),
            Some(Err(why)) => AnswerLine::Refused(why),
            None => AnswerLine::Unfit,
        }
    }
}

// How often a reader is asked for the next record.
const MOST_READS: u8 = 50;

// The answer of a load.
fn loaded(answer: Result<usize, LoadRefusal>) -> AnswerLine {
    match answer {
        Ok(count) => AnswerLine::Letters(count),
        Err(LoadRefusal::Bad(fault)) => AnswerLine::Bad(fault),
        Err(LoadRefusal::TooShort) => AnswerLine::Refused(Refusal::TooShort),
    }
}

// The answer of a read of one record.
fn read(answer: Result<(), Fault>) -> AnswerLine {
    match answer {
        Ok(()) => AnswerLine::Done,
        Err(fault) => AnswerLine::Bad(fault),
    }
}

// Reads records until there are no more, or one is bad.
fn read_all<B: ScriptBody>(
    bytes: &[u8],
    parts: &mut Parts<B>,
    lines: &mut String,
) -> Result<(), AllocError> {
    let mut reader = Reader::new(bytes);
    for _ in 0..MOST_READS {
        match reader.next(parts) {
            Ok(Some(index)) => {
                writeln!(lines, "read {index}")?;
                add_parts(lines, parts)?;
            }
            Ok(None) => break,
            Err(fault) => {
                add_answer(lines, AnswerLine::Bad(fault))?;
                return add_parts(lines, parts);
            }
        }
    }
    writeln!(lines, "end")
}

impl<B: ScriptBody, C: Carrier<Body = B> + Drop, K: ScriptSheet<Body = B> + Drop> Site<B, C, K> {
    fn use_file(
        &mut self,
        asked: OnFile,
        call: &ScriptCall,
        lines: &mut String,
    ) -> Result<(), AllocError> {
        let place = usize::from(call.number);
        match asked {
            OnFile::Save => self.save(call, lines),
            OnFile::Load => self.load(call, lines),
            OnFile::Write => {
                let answer = self.write_byte(place, call.first);
                add_answer(lines, answer)
            }
            OnFile::ReadRecord => {
                let answer = read_record(front(&self.file, place), &mut self.parts);
                add_answer(lines, read(answer))?;
                add_parts(lines, &self.parts)
            }
            OnFile::ReadAll => read_all(front(&self.file, place), &mut self.parts, lines),
        }
    }

    fn save(&mut self, call: &ScriptCall, lines: &mut String) -> Result<(), AllocError> {
        let Some(tables) = self.sets.get(call.set) else {
            return Ok(());
        };
        let bytes = front_mut(&mut self.file, usize::from(call.number));
        match save(front(&tables.logs, call.logs), bytes) {
            Ok(count) => add_answer(lines, AnswerLine::Bytes(count))?,
            Err(why) => add_answer(lines, AnswerLine::Refused(why))?,
        }
        let sum = byte_sum(&self.file);
        writeln!(lines, "file {sum}")
    }

    fn load(&mut self, call: &ScriptCall, lines: &mut String) -> Result<(), AllocError> {
        let Some(tables) = self.sets.get_mut(call.set) else {
            return Ok(());
        };
        let bytes = front(&self.file, usize::from(call.number));
        let answer = load(bytes, front_mut(&mut tables.logs, call.logs));
        add_answer(lines, loaded(answer))?;
        tables.add_sums(lines)
    }

    fn write_byte(&mut self, place: usize, byte: u8) -> AnswerLine {
        match self.file.get_mut(place) {
            Some(there) => {
                *there = byte;
                AnswerLine::Done
            }
            None => AnswerLine::Unfit,
        }
    }
}

// Writes a letter at a place of a table.
fn write_at<B: Copy>(table: &mut [Letter<B>], place: u32, letter: &Letter<B>) -> AnswerLine {
    match table.get_mut(place as usize) {
        Some(there) => {
            *there = *letter;
            AnswerLine::Done
        }
        None => AnswerLine::Unfit,
    }
}

impl<B: ScriptBody, C: Carrier<Body = B> + Drop, K: ScriptSheet<Body = B> + Drop> Site<B, C, K> {
    fn make_with(
        &mut self,
        asked: WithLetter,
        call: &ScriptCall,
        letter: &Letter<B>,
        lines: &mut String,
    ) -> Result<(), AllocError> {
        match asked {
            WithLetter::WriteLog => {
                let answer = self.write_log(call, letter);
                add_answer(lines, answer)
            }
            WithLetter::WriteHold => {
                let answer = self.write_hold(call, letter);
                add_answer(lines, answer)
            }
            WithLetter::Put => {
                let answer = self.put(call, letter);
                add_answer(lines, answer)
            }
            WithLetter::Make => {
                let sum = letter_sum(letter);
                writeln!(lines, "letter {} sum {sum}", letter.id())
            }
            WithLetter::PutAndDraw => {
                let answer = self.put_and_draw(call, letter);
                add_answer(lines, answer)?;
                add_parts(lines, &self.parts)
            }
            WithLetter::OverLines => self.deliver(call, letter, lines),
            WithLetter::Enter => {
                let answer = self.sheet.enter(letter);
                add_answer(lines, AnswerLine::of(answer))
            }
        }
    }

    fn write_log(&mut self, call: &ScriptCall, letter: &Letter<B>) -> AnswerLine {
        match self.sets.get_mut(call.set) {
            Some(tables) => write_at(&mut tables.logs, call.wide, letter),
            None => AnswerLine::Unfit,
        }
    }

    fn write_hold(&mut self, call: &ScriptCall, letter: &Letter<B>) -> AnswerLine {
        match self.sets.get_mut(call.set) {
            Some(tables) => write_at(&mut tables.holds, call.wide, letter),
            None => AnswerLine::Unfit,
        }
    }

    fn put(&mut self, call: &ScriptCall, letter: &Letter<B>) -> AnswerLine {
        match self.carriers.get_mut(call.carrier) {
            Some(carrier) => AnswerLine::of(carrier.put(letter)),
            None => AnswerLine::Unfit,
        }
    }

    fn put_and_draw(&mut self, call: &ScriptCall, letter: &Letter<B>) -> AnswerLine {
        match self.carriers.get_mut(call.carrier) {
            Some(carrier) => AnswerLine::of(put_and_draw(
                carrier,
                letter,
                call.seat,
                &mut self.parts,
            )),
            None => AnswerLine::Unfit,
        }
    }

    // Puts and draws a letter over lines that are made of the letters of a table.
    fn deliver(
        &mut self,
        call: &ScriptCall,
        letter: &Letter<B>,
        lines: &mut String,
    ) -> Result<(), AllocError> {
        let Some(tables) = self.sets.get_mut(call.set) else {
            return Ok(());
        };
        let places = front_mut(&mut tables.logs, call.logs);
        let answer = over_lines(
            places,
            call.struck,
            call.wide,
            letter,
            call.seat,
            &mut self.parts,
        );
        add_answer(lines, AnswerLine::of(answer))?;
        add_parts(lines, &self.parts)?;
        if answer.is_err() {
            tables.add_sums(lines)?;
        }
        Ok(())
    }
}
