// Stamps as bytes.
ghost use Rattle.std.specs.Prelude.{◌≡◌, ◌≤◌, length, take};
ghost use Rattle.records.specs.Records.{stamp_bytes};

use crate::bytes::number_at;
use letters::stamp::Stamp;
use std::array;

pub(crate) const STAMP_SIZE: usize = 32;

// The entries in order, the low byte of each first.
pub(crate) fn write_stamp(stamp: &Stamp) -> [u8; STAMP_SIZE]
    ensures { result ≡ stamp_bytes stamp.now }
{
    array::from_fn(|at| stamp.entries[at / 2].to_le_bytes()[at % 2])
}

// The stamp that the first bytes write.
pub(crate) fn read_stamp(bytes: &[u8]) -> Stamp
    requires { STAMP_SIZE ≤ length bytes.now }
    ensures { stamp_bytes result ≡ take STAMP_SIZE bytes.now }
{
    Stamp {
        entries: array::from_fn(|seat| number_at(bytes, 2 * seat)),
    }
}
