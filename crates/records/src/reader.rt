// Reads a file of records one by one.
ghost use Rattle.std.specs.Prelude.{◌*◌, ◌≤◌, length};
ghost use Rattle.records.specs.declared.record.TheConstants.{RECORD_SIZE};

use std::marker::PhantomData;

mod reading;

// A reader of letters with one type of bodies, over bytes that it borrows: a cursor over a file.
#[derive(Drop)]
pub struct Reader<'a, B> {
    bytes: &'a [u8],
    // how many records were read
    index: usize,
    body: PhantomData<B>,
    ghost within: { RECORD_SIZE * index ≤ length bytes.now },
}
