// Spool: letter records, each with a mask of the seats that have yet to draw it, in one lent buffer.
#![tactic(auto)]

ghost use Rattle.std.specs.Prelude.{ℕ, ◌*◌, ◌^◌, ◌<◌, ◌≤◌, length};
ghost use Rattle.spool.specs.declared.row_buffer.TheConstants.{ROW_SIZE};
ghost use Rattle.spool.specs.Rows.{mask_of, row_at};

use crate::row_buffer::RowBuffer;
use std::marker::PhantomData;

pub mod carrying;
mod masks;
pub mod row_buffer;

// The first rows of the buffer hold the letters that wait, in the order of their puts.
#[derive(Drop)]
pub struct Spool<'a, B> {
    row_buffer: RowBuffer<'a>,
    rows: usize,
    seats: u8,
    body: PhantomData<B>,
    ghost some: { 1 ≤ seats },
    ghost few: { seats ≤ 16 },
    ghost spacious: { ROW_SIZE ≤ length row_buffer.bytes.now },
    ghost whole: { rows * ROW_SIZE ≤ length row_buffer.bytes.now },
    ghost wanted: { (r : ℕ) → r < rows → 0 < mask_of (row_at row_buffer.bytes.now r) },
    ghost seated: { (r : ℕ) → r < rows → mask_of (row_at row_buffer.bytes.now r) < 2 ^ seats },
}
