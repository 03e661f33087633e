// The lines of a listing.
ghost use Rattle.std.specs.Prelude.{◌≡◌, ℕ, List, ◌++◌, OnOk, Some, string_bytes};
ghost use Rattle.std.specs.Fmt.{WritesOnOk};
ghost use Rattle.letters.specs.Texts.{text_bytes};
ghost use Rattle.listing.specs.ListingLines.{commas, count_line, fault_line, job_says, letter_line, text_says};

use letters::body::Body;
use letters::job::Job;
use letters::parts::Parts;
use letters::text::Text;
use std::alloc::AllocError;
use std::fmt::{Display, Formatter};
use std::{fmt, str};

// A body that a line can show.
pub trait Say: Body {
    ghost says: { Self → List ℕ };

    // Writes what the body says.
    fn say<W: fmt::Write>(&self, f: &mut Formatter<W>) -> fmt::Result
        ensures { WritesOnOk W.write_str_gives f.old result (says self.now) f.new };
}

impl Say for Text {
    ghost says = { text_says };

    fn say<W: fmt::Write>(&self, f: &mut Formatter<W>) -> fmt::Result {
        let chars = chars(self);
        write!(f, "text {chars}")
    }
}

// The characters of a text.
fn chars(text: &Text) -> &str
    ensures { result.now ≡ text_bytes text.now }
{
    str::from_utf8(text.as_bytes()).unwrap()
}

impl Say for Job {
    ghost says = { job_says };

    fn say<W: fmt::Write>(&self, f: &mut Formatter<W>) -> fmt::Result {
        match self {
            Job::Add(code) => write!(f, "add {code}"),
            Job::Strike(id) => write!(f, "strike {id}"),
        }
    }
}

// What a body says. It stands in for the body, which is of another crate, so that its `Display` can be written here.
#[derive(Clone, Copy)]
struct Said<'a, B>(&'a B);

impl<B: Say> Display for Said<'_, B> {
    ghost output = { λ said. Some (B.says said.0.now) };

    fn fmt<W: fmt::Write>(&self, f: &mut Formatter<W>) -> fmt::Result {
        self.0.say(f)
    }
}

// The entries of a stamp, joined by commas.
#[derive(Clone, Copy)]
struct Entries<'a>(&'a [u16]);

impl Display for Entries<'_> {
    ghost output = { λ entries. Some (commas entries.0.now) };

    fn fmt<W: fmt::Write>(&self, f: &mut Formatter<W>) -> fmt::Result {
        if let [first, others @ ..] = self.0 {
            write!(f, "{first}")?;
            for entry in others {
                write!(f, ",{entry}")?;
            }
        }
        Ok(())
    }
}

// Adds the line of a letter.
pub fn add_letter<B: Say>(line: &mut String, index: u64, parts: &Parts<B>) -> Result<(), AllocError>
    ensures { OnOk result (string_bytes line.new ≡ string_bytes line.old ++ letter_line B.says index parts.now) }
{
    let poster = parts.poster;
    let number = parts.stamp.entry(poster);
    let entries = Entries(&parts.stamp.entries);
    let body = Said(&parts.body);
    writeln!(line, "{index} {poster}.{number} {entries} {body}")
}

// Adds the line of a fault.
pub fn add_fault(line: &mut String, index: u64, byte: u8) -> Result<(), AllocError>
    ensures { OnOk result (string_bytes line.new ≡ string_bytes line.old ++ fault_line index byte) }
{
    writeln!(line, "{index} bad {byte}")
}

// Adds the last line.
pub fn add_count(line: &mut String, letters: u64) -> Result<(), AllocError>
    ensures { OnOk result (string_bytes line.new ≡ string_bytes line.old ++ count_line letters) }
{
    writeln!(line, "{letters} letters")
}
