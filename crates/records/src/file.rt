// Whole files of letters: into a table and back.
ghost use Rattle.std.specs.Prelude.{◌≡◌, ◌*◌, ◌≤◌, ◌++◌, length, drop, None, Ok};
ghost use Rattle.letters.specs.Refusals.{as_answer};
ghost use Rattle.records.specs.Files.{FileLoaded, Loaded, buffer_with_file, file_fault, file_of, save_answer};

use crate::bytes::put;
use crate::fault::Fault;
use crate::load_refusal::LoadRefusal;
use crate::record::{RECORD_SIZE, first_wrong, read_letter, to_record};
use letters::body::Body;
use letters::letter::Letter;
use letters::refusal::Refusal;

fn first_fault<B: Body>(bytes: &[u8]) -> Option<Fault>
    ensures { result ≡ file_fault B.form bytes.now }
{
    for (index, record) in bytes.chunks(RECORD_SIZE).enumerate() {
        if let Some(byte) = first_wrong::<B>(record) {
            return Some(Fault { index, byte });
        }
    }
    None
}

// Fills the front of a table with the letters of a file in which nothing is wrong.
fn fill_table<B: Body>(bytes: &[u8], table: &mut [Letter<B>], count: usize)
    requires whole { RECORD_SIZE * count ≡ length bytes.now }
    requires places { count ≤ length table.old }
    requires right { file_fault B.form bytes.now ≡ None }
    ensures { Loaded B.form bytes.now table.old table.new (Ok count) }
{
    // Written by index: what goes through `iter_mut` is not known afterwards.
    let (records, _) = bytes.as_chunks();
    for (index, record) in records.iter().enumerate() {
        table[index] = read_letter(record);
    }
}

// Reads a whole file into the front of a table and answers how many letters there were.
// It checks first: on refusal, the table is as it was.
pub fn load<B: Body>(bytes: &[u8], table: &mut [Letter<B>]) -> Result<usize, LoadRefusal>
    ensures { FileLoaded B.form bytes.now table.old table.new result }
{
    if let Some(fault) = first_fault::<B>(bytes) {
        return Err(LoadRefusal::Bad(fault));
    }
    let count = bytes.len() / RECORD_SIZE;
    if table.len() < count {
        return Err(LoadRefusal::TooShort);
    }
    fill_table(bytes, table, count);
    Ok(count)
}

// Writes the letters' file to the front of a buffer and answers how many bytes it takes.
// A buffer with fewer is refused with 5 and stays as it was.
pub fn save<B: Body>(letters: &[Letter<B>], out: &mut [u8]) -> Result<usize, Refusal>
    ensures answer { as_answer (λ n. n) result ≡ save_answer (length letters.now) (length out.old) }
    ensures buffer { out.new ≡ buffer_with_file B.form letters.now out.old }
{
    if out.len() / RECORD_SIZE < letters.len() {
        return Err(Refusal::TooShort);
    }
    write_all(letters, out);
    Ok(RECORD_SIZE * letters.len())
}

// Writes the letters' records one after another from the front on.
fn write_all<B: Body>(letters: &[Letter<B>], out: &mut [u8])
    requires { RECORD_SIZE * length letters.now ≤ length out.old }
    ensures { out.new ≡ file_of B.form letters.now ++ drop (RECORD_SIZE * length letters.now) out.old }
{
    // Written by index, as above.
    for (index, letter) in letters.iter().enumerate() {
        put(out, RECORD_SIZE * index, &to_record(letter));
    }
}
