// Lists a file of letter records, or says where it is damaged.
#![tactic(auto)]

ghost use Rattle.std.specs.Prelude.{◌≡◌, ◌↔◌, IfOk, OnOk, Err, string_bytes};
ghost use Rattle.letters.specs.Jobs.{job_form};
ghost use Rattle.letters.specs.Texts.{text_form};
ghost use Rattle.listing.specs.Asking.{AsksForNone, AsksJobs, AsksTexts};
ghost use Rattle.listing.specs.ListingLines.{job_says, text_says};
ghost use Rattle.listing.specs.Listings.{HeldListed, Lists};
ghost use Rattle.listing.specs.declared.failure.Failure.TheVariants.{Usage};

use crate::failure::Failure;
use crate::kind::{Kind, kind_asked};
use crate::line::{Say, add_count};
use crate::stepping::add_next;
use chunks::fill;
use letters::body::Body;
use letters::job::Job;
use letters::letter::Letter;
use letters::parts::Parts;
use letters::text::Text;
use records::fault::Fault;
use records::reader::Reader;
use records::record::RECORD_SIZE;
use std::alloc::{AllocError, Global};
use std::io::{Read, Write};
use std::process::ExitCode;
use std::{env, io};

mod failure;
mod kind;
mod line;
mod stepping;

// How many bytes are held at a time: 64 whole records.
const CHUNK: usize = 64 * RECORD_SIZE;

// Adds the lines of the records that are held, up to a fault, which ends the listing.
fn add_held<B: Say>(
    bytes: &[u8],
    letters: &mut u64,
    parts: &mut Parts<B>,
    lines: &mut String,
) -> Result<Result<(), Fault>, AllocError>
    ensures { IfOk result (λ ended. HeldListed B.form B.says bytes.now letters.old (string_bytes lines.old) ended letters.new (string_bytes lines.new)) }
{
    let mut reader = Reader::new(bytes);
    let mut count = *letters;
    let ended = loop {
        match add_next(&mut reader, count, parts, lines)? {
            Ok(Some(_)) => count = count.saturating_add(1),
            Ok(None) => break Ok(()),
            Err(fault) => break Err(fault),
        }
    };
    *letters = count;
    Ok(ended)
}

// Lists an input of any length, chunk by chunk, and writes nothing else. The body given is any of its kind.
fn list<B: Say, R: Read, W: Write>(
    alloc: Global,
    input: &mut R,
    output: &mut W,
    body: B,
) -> io::Result<()>
    ensures { OnOk result (Lists B.form B.says (R.remaining input.old) (W.contents output.old) (W.contents output.new)) }
{
    let mut held = [0; CHUNK];
    let mut lines = String::new(alloc);
    let mut letters = 0;
    let mut parts = Letter::blank(body).parts();
    // The bound is there only because every loop has to end.
    for _ in 0..u64::MAX {
        lines.clear();
        let read = fill(input, &mut held)?;
        let listed = add_held(&held[..read], &mut letters, &mut parts, &mut lines)?;
        if listed.is_err() || read < CHUNK {
            add_count(&mut lines, letters)?;
            return output.write_all(lines.as_bytes());
        }
        output.write_all(lines.as_bytes())?;
    }
    Err(io::Error::from(io::ErrorKind::InvalidInput))
}

// Lists an input as the arguments ask, of which the first is the program's name. Where they ask for no kind of body, nothing
// is read or written.
fn list_asked<R: Read, W: Write>(
    alloc: Global,
    args: &[String],
    input: &mut R,
    output: &mut W,
) -> Result<(), Failure>
    ensures texts { AsksTexts args.now → OnOk result (Lists text_form text_says (R.remaining input.old) (W.contents output.old) (W.contents output.new)) }
    ensures jobs { AsksJobs args.now → OnOk result (Lists job_form job_says (R.remaining input.old) (W.contents output.old) (W.contents output.new)) }
    ensures usage { (result ≡ Err Usage) ↔ AsksForNone args.now }
    ensures untouched { AsksForNone args.now → (input.new ≡ input.old) × (output.new ≡ output.old) }
{
    match kind_asked(args) {
        Some(Kind::Text) => Ok(list(alloc, input, output, Text::default())?),
        Some(Kind::Job) => Ok(list(alloc, input, output, Job::Add(0))?),
        None => Err(Failure::Usage),
    }
}

// The same, from the standard input to the standard output, by the program's own arguments.
fn run(rt: &HostRuntime) -> Result<(), Failure> {
    let args = match env::args(rt) {
        Ok(args) => args.collect::<Vec<String>>(rt.alloc())?,
        // An argument that is no text names no kind.
        Err(e) if e.kind() == io::ErrorKind::InvalidData => return Err(Failure::Usage),
        Err(e) => return Err(Failure::Io(e)),
    };
    list_asked(rt.alloc(), &args, &mut rt.stdin(), &mut io::writer(rt))
}

// A failure is printed on the standard error, and ends the program with status 1.
fn main(rt: HostRuntime) -> ExitCode {
    match run(&rt) {
        Ok(()) => ExitCode::SUCCESS,
        Err(why) => {
            let _ = eprintln!(rt; "{why}");
            ExitCode::FAILURE
        }
    }
}
