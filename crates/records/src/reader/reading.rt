// What a reader of records does.
ghost use Rattle.std.specs.Prelude.{◌≡◌};
ghost use Rattle.records.specs.Readers.{NextRead};

use crate::fault::Fault;
use crate::reader::Reader;
use crate::record::{RECORD_SIZE, read_record};
use letters::body::Body;
use letters::parts::Parts;
use std::marker::PhantomData;

impl<'a, B: Body> Reader<'a, B> {
    // A reader that stands at the first record.
    pub fn new(bytes: &'a [u8]) -> Reader<'a, B>
        ensures start { result.index ≡ 0 }
        ensures lent { result.bytes.now ≡ bytes.now }
    {
        Reader {
            bytes,
            index: 0,
            body: PhantomData,
        }
    }

    // Fills the lent parts with those of the next letter and answers its record's index, or none at the end.
    pub fn next(&mut self, parts: &mut Parts<B>) -> Result<Option<usize>, Fault>
        ensures { NextRead B.form self.old self.new parts.old parts.new result }
    {
        let at = RECORD_SIZE * self.index;
        let index = self.index;
        if self.bytes.len() - at == 0 {
            return Ok(None);
        }
        match read_record(&self.bytes[at..], parts) {
            Ok(()) => {
                self.index = index + 1;
                Ok(Some(index))
            }
            Err(fault) => Err(Fault { index, ..fault }),
        }
    }
}
