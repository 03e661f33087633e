// One letter as a record.
ghost use Rattle.std.specs.Prelude.{◌≡◌, ◌≤◌, not, ◌++◌, take, drop, None};
ghost use Rattle.std.specs.List.{position};
ghost use Rattle.letters.specs.Checks.{first_failing};
ghost use Rattle.records.specs.Faults.{fault_as_answer};
ghost use Rattle.records.specs.Reading.{PartsAfter, RecordRead, read_answer};
ghost use Rattle.records.specs.Records.{body_part, is_zero, kind_byte, parts_record, record_of, wrong_byte, wrong_front, wrong_header};

use crate::bytes::{number_at, put};
use crate::fault::Fault;
use crate::stamps::{STAMP_SIZE, read_stamp, write_stamp};
use letters::body::{BODY_SPACE, Body};
use letters::letter::Letter;
use letters::parts::Parts;

// What stands where in a record, behind the stamp: first the poster, one byte.
pub const POSTER_PLACE: usize = STAMP_SIZE;

// The place of the byte of the body's kind.
pub const KIND_PLACE: usize = POSTER_PLACE + 1;

// The place of the body's length, one byte.
pub const LENGTH_PLACE: usize = KIND_PLACE + 1;

const ZERO_PLACE: usize = LENGTH_PLACE + 1;

// Where the body's space begins.
pub const BODY_PLACE: usize = ZERO_PLACE + 1;

// Where the body's space ends.
const BODY_END: usize = BODY_PLACE + BODY_SPACE;

// How many bytes a record has.
pub const RECORD_SIZE: usize = BODY_END;

// The record of a letter, RECORD_SIZE bytes.
pub fn to_record<B: Body>(letter: &Letter<B>) -> [u8; RECORD_SIZE]
    ensures { result ≡ record_of B.form letter.now }
{
    let body = letter.body();
    let header = [letter.poster(), body.kind(), body.len(), 0];
    assemble(&write_stamp(letter.stamp()), &header, &body.to_bytes())
}

fn assemble(
    stamp: &[u8; STAMP_SIZE],
    header: &[u8; 4],
    body: &[u8; BODY_SPACE],
) -> [u8; RECORD_SIZE]
    ensures { result ≡ stamp.now ++ (header.now ++ body.now) }
{
    let mut record = [0; RECORD_SIZE];
    put(&mut record, 0, stamp);
    put(&mut record, POSTER_PLACE, header);
    put(&mut record, BODY_PLACE, body);
    record
}

// Fills the lent parts with those of the letter whose record stands at the front; 20, with the index 0 and the first wrong
// byte, where none does.
pub fn read_record<B: Body>(bytes: &[u8], parts: &mut Parts<B>) -> Result<(), Fault>
    ensures { RecordRead B.form bytes.now parts.old parts.new result }
{
    match bytes.first_chunk::<RECORD_SIZE>() {
        Some(record) => read_whole(record, parts),
        None => Err(Fault {
            index: 0,
            byte: bytes.len() as u8,
        }),
    }
}

// The same for a whole record: checks first, then fills.
fn read_whole<B: Body>(bytes: &[u8; RECORD_SIZE], parts: &mut Parts<B>) -> Result<(), Fault>
    ensures answer { fault_as_answer result ≡ read_answer (wrong_byte B.form bytes.now) }
    ensures left { PartsAfter B.form bytes.now parts.old parts.new (wrong_byte B.form bytes.now) }
{
    if let Some(byte) = wrong_byte::<B>(bytes) {
        return Err(Fault { index: 0, byte });
    }
    *parts = read_parts(bytes);
    Ok(())
}

// The parts that a record in which nothing is wrong writes.
fn read_parts<B: Body>(bytes: &[u8; RECORD_SIZE]) -> Parts<B>
    requires { wrong_byte B.form bytes.now ≡ None }
    ensures { parts_record B.form result ≡ bytes.now }
{
    Parts {
        stamp: read_stamp(bytes),
        poster: bytes[POSTER_PLACE],
        body: read_body(bytes),
    }
}

// The body of a record in which nothing is wrong.
fn read_body<B: Body>(bytes: &[u8; RECORD_SIZE]) -> B
    requires { wrong_byte B.form bytes.now ≡ None }
    ensures kind { B.form.kind result ≡ kind_byte bytes.now }
    ensures bytes { B.form.bytes result ≡ body_part bytes.now }
{
    let len = bytes[LENGTH_PLACE] as usize;
    B::read(bytes[KIND_PLACE], &bytes[BODY_PLACE..BODY_PLACE + len])
}

// The letter of a record in which nothing is wrong.
pub(crate) fn read_letter<B: Body>(bytes: &[u8; RECORD_SIZE]) -> Letter<B>
    requires { wrong_byte B.form bytes.now ≡ None }
    ensures { record_of B.form result ≡ bytes.now }
{
    Letter::make(read_parts(bytes))
}

// The first wrong byte of the record at the front; where the bytes are too few for one, how many there are.
pub fn first_wrong<B: Body>(bytes: &[u8]) -> Option<u8>
    ensures { result ≡ wrong_front B.form bytes.now }
{
    match bytes.first_chunk() {
        Some(record) => wrong_byte::<B>(record),
        None => Some(bytes.len() as u8),
    }
}

// The first wrong byte of a whole record.
fn wrong_byte<B: Body>(bytes: &[u8; RECORD_SIZE]) -> Option<u8>
    ensures { result ≡ wrong_byte B.form bytes.now }
{
    if let Some(place) = wrong_header::<B>(bytes) {
        return Some(place);
    }
    let len = bytes[LENGTH_PLACE];
    if let Some(place) = B::wrong(
        bytes[KIND_PLACE],
        &bytes[BODY_PLACE..BODY_PLACE + len as usize],
    ) {
        return Some(BODY_PLACE as u8 + place);
    }
    nonzero_from(bytes, BODY_PLACE as u8 + len)
}

// The first wrong byte before the body.
fn wrong_header<B: Body>(bytes: &[u8; RECORD_SIZE]) -> Option<u8>
    ensures { result ≡ wrong_header B.form bytes.now }
{
    let poster = bytes[POSTER_PLACE];
    if poster >= 16 {
        return Some(POSTER_PLACE as u8);
    }
    if number_at(bytes, 2 * poster as usize) == 0 {
        return Some(2 * poster);
    }
    if !B::has_kind(bytes[KIND_PLACE]) {
        return Some(KIND_PLACE as u8);
    }
    if !B::has_length(bytes[KIND_PLACE], bytes[LENGTH_PLACE]) {
        return Some(LENGTH_PLACE as u8);
    }
    if bytes[ZERO_PLACE] != 0 {
        return Some(ZERO_PLACE as u8);
    }
    None
}

// The first byte that is not zero, from a place in the body's space to its end.
fn nonzero_from(bytes: &[u8; RECORD_SIZE], from: u8) -> Option<u8>
    requires { from ≤ BODY_END }
    ensures { result ≡ first_failing is_zero from (drop from (take BODY_END bytes.now)) }
{
    let place = first_nonzero(&bytes[from as usize..BODY_END])?;
    Some(from + place as u8)
}

fn first_nonzero(bytes: &[u8]) -> Option<usize>
    ensures { result ≡ position (λ b. not (is_zero b)) bytes.now }
{
    bytes.iter().position(|b| *b != 0)
}
