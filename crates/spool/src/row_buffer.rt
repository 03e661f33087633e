// The lent buffer of a spool, row by row. The spool keeps how many rows there are.
ghost use Rattle.std.specs.Prelude.{◌≡◌, ℕ, ◌+◌, ◌*◌, ◌<◌, ◌≤◌, length};
ghost use Rattle.std.specs.Simd.{first_chunks};
ghost use Rattle.std.specs.List.{copy_within};
ghost use Rattle.letters.specs.Letters.{parts_of};
ghost use Rattle.letters.specs.Numbers.{bytes_of_16};
ghost use Rattle.carriers.specs.Places.{OnlyAt};
ghost use Rattle.records.specs.Buffers.{overlaid};
ghost use Rattle.records.specs.Records.{record_of};
ghost use Rattle.spool.specs.Decoding.{letter_of};
ghost use Rattle.spool.specs.Rows.{mask_of, record_part, row_at};

use letters::body::Body;
use letters::letter::Letter;
use letters::parts::Parts;
use records::record::{RECORD_SIZE, read_record, to_record};

// How many bytes a row has: a record and a mask.
pub const ROW_SIZE: usize = RECORD_SIZE + 2;

#[derive(Drop)]
pub(crate) struct RowBuffer<'a> {
    pub(crate) bytes: &'a mut [u8],
}

pub(crate) fn mask_of(row: &[u8; ROW_SIZE]) -> u16
    ensures { result ≡ mask_of row.now }
{
    u16::from_le_bytes([row[RECORD_SIZE], row[RECORD_SIZE + 1]])
}

impl<'a> RowBuffer<'a> {
    // The first rows.
    pub(crate) fn rows(&self, count: usize) -> &[[u8; ROW_SIZE]]
        requires { count * ROW_SIZE ≤ length self.now.bytes.now }
        ensures { result.now ≡ first_chunks ROW_SIZE count self.now.bytes.now }
    {
        let (rows, _) = self.bytes.as_chunks();
        &rows[..count]
    }

    pub(crate) fn set_mask(&mut self, row: usize, mask: u16)
        requires { row * ROW_SIZE + ROW_SIZE ≤ length self.old.bytes.now }
        ensures long { length self.new.bytes.now ≡ length self.old.bytes.now }
        ensures lender { self.new.bytes.ghost_name ≡ self.old.bytes.ghost_name }
        ensures only { OnlyAt (row * ROW_SIZE) ROW_SIZE self.old.bytes.now self.new.bytes.now }
        ensures mask { mask_of (row_at self.new.bytes.now row) ≡ mask }
        ensures letter { record_part (row_at self.new.bytes.now row) ≡ record_part (row_at self.old.bytes.now row) }
        ensures bytes { self.new.bytes.now ≡ overlaid self.old.bytes.now (row * ROW_SIZE + RECORD_SIZE) (bytes_of_16 mask) }
    {
        let at = row * ROW_SIZE + RECORD_SIZE;
        let [low, high] = mask.to_le_bytes();
        self.bytes[at] = low;
        self.bytes[at + 1] = high;
    }

    // Fills the lent parts with those of a row's letter.
    pub(crate) fn read<B: Body>(&self, row: usize, parts: &mut Parts<B>)
        requires { row * ROW_SIZE + ROW_SIZE ≤ length self.now.bytes.now }
        ensures { parts.new ≡ parts_of (letter_of B.form B.blank (record_part (row_at self.now.bytes.now row))) }
    {
        let at = row * ROW_SIZE;
        read_letter(&self.bytes[at..at + RECORD_SIZE], parts);
    }

    // Writes a letter's record into a row.
    pub(crate) fn write<B: Body>(&mut self, row: usize, letter: &Letter<B>)
        requires { row * ROW_SIZE + ROW_SIZE ≤ length self.old.bytes.now }
        ensures long { length self.new.bytes.now ≡ length self.old.bytes.now }
        ensures lender { self.new.bytes.ghost_name ≡ self.old.bytes.ghost_name }
        ensures only { OnlyAt (row * ROW_SIZE) ROW_SIZE self.old.bytes.now self.new.bytes.now }
        ensures letter { record_part (row_at self.new.bytes.now row) ≡ record_of B.form letter.now }
        ensures bytes { self.new.bytes.now ≡ overlaid self.old.bytes.now (row * ROW_SIZE) (record_of B.form letter.now) }
    {
        let at = row * ROW_SIZE;
        write_letter(letter, &mut self.bytes[at..at + RECORD_SIZE]);
    }

    // Moves the rows behind one down over it.
    pub(crate) fn close_up(&mut self, row: usize, rows: usize)
        requires { (row < rows) × (rows * ROW_SIZE ≤ length self.old.bytes.now) }
        ensures long { length self.new.bytes.now ≡ length self.old.bytes.now }
        ensures lender { self.new.bytes.ghost_name ≡ self.old.bytes.ghost_name }
        ensures before { (r : ℕ) → r < row → row_at self.new.bytes.now r ≡ row_at self.old.bytes.now r }
        ensures behind { (r : ℕ) → row ≤ r → r + 1 < rows → row_at self.new.bytes.now r ≡ row_at self.old.bytes.now (r + 1) }
        ensures bytes { self.new.bytes.now ≡ copy_within self.old.bytes.now ((row + 1) * ROW_SIZE) (rows * ROW_SIZE) (row * ROW_SIZE) }
    {
        self.bytes
            .copy_within((row + 1) * ROW_SIZE..rows * ROW_SIZE, row * ROW_SIZE);
    }
}

// Writes a letter's record over bytes of its size.
fn write_letter<B: Body>(letter: &Letter<B>, into: &mut [u8])
    requires { length into.old ≡ RECORD_SIZE }
    ensures { into.new ≡ record_of B.form letter.now }
{
    let record = to_record(letter);
    into.copy_from_slice(&record);
}

// Fills the lent parts with those of the letter that the bytes of a record stand for.
fn read_letter<B: Body>(bytes: &[u8], parts: &mut Parts<B>)
    requires { length bytes.now ≡ RECORD_SIZE }
    ensures { parts.new ≡ parts_of (letter_of B.form B.blank bytes.now) }
{
    match read_record(bytes, parts) {
        Ok(()) => {}
        Err(_) => *parts = Letter::blank(B::make_blank()).parts(),
    }
}
