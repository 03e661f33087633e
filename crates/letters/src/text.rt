ghost use Rattle.std.specs.Prelude.{◌≡◌, ◌-◌, ◌≤◌, false, length, take, drop, replicate, is_some};
ghost use Rattle.letters.specs.declared.text.TheConstants.{LONGEST_TEXT};
ghost use Rattle.letters.specs.Characters.{text_wrong};

use crate::body::BODY_SPACE;

pub mod reading;

// How many bytes the longest text has.
pub const LONGEST_TEXT: usize = BODY_SPACE;

// A line of text: up to sixty printable characters, with zeros after them.
// The characters stand in an array, with how many there are: letters are copied, in fixed memory.
#[derive(Clone, Copy)]
pub struct Text {
    chars: [u8; LONGEST_TEXT],
    len: u8,
    ghost sized: { length chars ≡ LONGEST_TEXT },
    ghost short: { len ≤ LONGEST_TEXT },
    ghost clean: { is_some (text_wrong (take len chars)) ≡ false },
    ghost blank: { drop len chars ≡ replicate (LONGEST_TEXT - len) 0 },
}
