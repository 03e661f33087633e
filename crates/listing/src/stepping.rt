// Listing record by record.
ghost use Rattle.std.specs.Prelude.{◌≡◌, ◌++◌, IfOk, OnOk, string_bytes};
ghost use Rattle.records.specs.Faults.{fault_as_answer};
ghost use Rattle.records.specs.Readers.{bytes_ahead, finding_of, next_answer};
ghost use Rattle.listing.specs.Stepping.{AskedOnce, next_line};

use crate::line::{Say, add_fault, add_letter};
use letters::parts::Parts;
use records::fault::Fault;
use records::reader::Reader;
use std::alloc::AllocError;

// Reads the next record and adds its line, under the index given; at the end it adds nothing. Answers what the reader did.
pub fn add_next<B: Say>(
    reader: &mut Reader<B>,
    index: u64,
    parts: &mut Parts<B>,
    line: &mut String,
) -> Result<Result<Option<usize>, Fault>, AllocError>
    ensures answer { IfOk result (λ read. fault_as_answer read ≡ next_answer reader.old.index (finding_of B.form (bytes_ahead reader.old))) }
    ensures reads { AskedOnce B.form reader.old reader.new parts.old parts.new result }
    ensures line { OnOk result (string_bytes line.new ≡ string_bytes line.old ++ next_line B.form B.says index reader.old) }
{
    match reader.next(parts) {
        Ok(Some(read)) => {
            add_letter(line, index, parts)?;
            Ok(Ok(Some(read)))
        }
        Ok(None) => Ok(Ok(None)),
        Err(fault) => {
            add_fault(line, index, fault.byte)?;
            Ok(Err(fault))
        }
    }
}
