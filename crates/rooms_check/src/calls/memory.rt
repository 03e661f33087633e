// The memory that is brought and lent: letter tables, carriers and sheets, and the lines about them.
use crate::Stop;
use crate::calls::{AnswerLine, Make, ScriptBody, Size, byte_sum, chars, table_sum};
use carriers::lines::Lines;
use letters::letter::Letter;
use letters::parts::Parts;
use letters::refusal::Refusal;
use pair::Pair;
use sheet_kinds::job_list::JobList;
use sheet_kinds::timeline::Timeline;
use sheets::sheet::Sheet;
use spool::Spool;
use std::alloc::{AllocError, Global};

pub mod life;

// A table for logs and one for holds.
#[derive(Drop)]
struct Tables<B> {
    logs: Vec<Letter<B>>,
    holds: Vec<Letter<B>>,
}

impl<B: ScriptBody> Tables<B> {
    fn new(alloc: Global, places: usize, blank: Letter<B>) -> Result<Tables<B>, AllocError> {
        Ok(Tables {
            logs: vec![in alloc; blank; places]?,
            holds: vec![in alloc; blank; places]?,
        })
    }

    // Adds the line of the sums over both.
    fn add_sums(&self, lines: &mut String) -> Result<(), AllocError> {
        let logs = table_sum(&self.logs);
        let holds = table_sum(&self.holds);
        writeln!(lines, "set {logs} {holds}")
    }
}

// The front of a table, to be read; the whole table where it is not longer than that.
fn front<T>(table: &[T], len: usize) -> &[T] {
    let len = len.min(table.len());
    &table[..len]
}

// The same, to be written.
fn front_mut<T>(table: &mut [T], len: usize) -> &mut [T] {
    let len = len.min(table.len());
    &mut table[..len]
}

// What is lent to a carrier.
#[derive(Drop)]
struct Lent<B> {
    letters: Vec<Letter<B>>,
    bytes: Vec<u8>,
}

impl<B: ScriptBody> Lent<B> {
    fn new(alloc: Global, size: Size, blank: Letter<B>) -> Result<Lent<B>, AllocError> {
        Ok(Lent {
            letters: vec![in alloc; blank; size.letters]?,
            bytes: vec![in alloc; 0; size.bytes]?,
        })
    }

    // Adds the line of what was lent to a carrier of this make.
    fn add_sums(&self, make: Make, lines: &mut String) -> Result<(), AllocError> {
        let letters = table_sum(&self.letters);
        let bytes = byte_sum(&self.bytes);
        match make {
            Make::Lines => writeln!(lines, "lent {letters}"),
            Make::Spool => writeln!(lines, "lent {bytes}"),
            Make::Pair => writeln!(lines, "lent {letters} {bytes}"),
        }
    }
}

fn lines_over<B: ScriptBody>(
    size: Size,
    letters: &mut [Letter<B>],
) -> Result<Lines<'_, B>, Refusal> {
    Lines::check(letters, size.seats, size.places)?;
    Ok(Lines::new(letters, size.seats, size.places))
}

fn spool_over<B: ScriptBody>(seats: u8, bytes: &mut [u8]) -> Result<Spool<'_, B>, Refusal> {
    Spool::<B>::check(bytes, seats)?;
    Ok(Spool::<B>::new(bytes, seats))
}

fn pair_over<B: ScriptBody>(
    size: Size,
    lent: &mut Lent<B>,
) -> Result<Pair<Lines<'_, B>, Spool<'_, B>>, Refusal> {
    let lines = lines_over(size, &mut lent.letters)?;
    let spool = spool_over(size.spool_seats, &mut lent.bytes)?;
    Pair::check(&lines, &spool)?;
    Ok(Pair::new(lines, spool))
}

// The carriers of each make, over what is lent to each.
fn all_lines<B: ScriptBody>(
    alloc: Global,
    sizes: [Size; 3],
    lent: &mut [Lent<B>],
) -> Result<Vec<Lines<'_, B>>, Stop> {
    let mut carriers = Vec::new(alloc);
    for (lent, size) in lent.into_iter().zip(sizes) {
        carriers
            .push(lines_over(size, &mut lent.letters)?)
            .map_err(AllocError::from)?;
    }
    Ok(carriers)
}

fn all_spools<B: ScriptBody>(
    alloc: Global,
    sizes: [Size; 3],
    lent: &mut [Lent<B>],
) -> Result<Vec<Spool<'_, B>>, Stop> {
    let mut carriers = Vec::new(alloc);
    for (lent, size) in lent.into_iter().zip(sizes) {
        carriers
            .push(spool_over(size.seats, &mut lent.bytes)?)
            .map_err(AllocError::from)?;
    }
    Ok(carriers)
}

fn all_pairs<B: ScriptBody>(
    alloc: Global,
    sizes: [Size; 3],
    lent: &mut [Lent<B>],
) -> Result<Vec<Pair<Lines<'_, B>, Spool<'_, B>>>, Stop> {
    let mut carriers = Vec::new(alloc);
    for (lent, size) in lent.into_iter().zip(sizes) {
        carriers
            .push(pair_over(size, lent)?)
            .map_err(AllocError::from)?;
    }
    Ok(carriers)
}

// A kind of sheet that a script can print.
trait ScriptSheet: Sheet {
    // Adds its lines: how many letters are entered, and what it has.
    fn add_lines(&self, lines: &mut String) -> Result<(), AllocError>;
}

impl ScriptSheet for JobList {
    fn add_lines(&self, lines: &mut String) -> Result<(), AllocError> {
        writeln!(lines, "sheet {}", self.letters())?;
        for job in self.jobs() {
            writeln!(lines, "job {}.{} {}", job.poster, job.number, job.code)?;
        }
        Ok(())
    }
}

impl ScriptSheet for Timeline {
    fn add_lines(&self, lines: &mut String) -> Result<(), AllocError> {
        writeln!(lines, "sheet {} pages {}", self.letters(), self.pages())?;
        for row in self.rows() {
            let chars = chars(&row.text);
            writeln!(
                lines,
                "row {} {}.{} {chars}",
                row.rank, row.poster, row.number
            )?;
        }
        Ok(())
    }
}

fn add_answer(lines: &mut String, answer: AnswerLine) -> Result<(), AllocError> {
    writeln!(lines, "{answer}")
}

// Adds the line of a letter's parts.
fn add_parts<B: ScriptBody>(lines: &mut String, parts: &Parts<B>) -> Result<(), AllocError> {
    write!(lines, "parts {}", parts.poster)?;
    let mut mark = ' ';
    for entry in parts.stamp.entries {
        write!(lines, "{mark}{entry}")?;
        mark = ',';
    }
    write!(lines, " ")?;
    parts.body.add_to(lines)?;
    writeln!(lines, "")
}

fn add_log<B: ScriptBody>(lines: &mut String, log: &[Letter<B>]) -> Result<(), AllocError> {
    write!(lines, "log")?;
    for letter in log {
        write!(lines, " {}", letter.id())?;
    }
    let sum = table_sum(log);
    writeln!(lines, " sum {sum}")
}
