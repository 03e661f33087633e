// Texts as bodies of letters, and the making of a text of any bytes.
ghost use Rattle.std.specs.Prelude.{◌≡◌, ◌≤◌, not, [], ◌++◌, length, drop, None};
ghost use Rattle.std.specs.List.{position};
ghost use Rattle.letters.specs.Characters.{printable, text_wrong};
ghost use Rattle.letters.specs.Numbers.{padded};
ghost use Rattle.letters.specs.Refusals.{as_answer};
ghost use Rattle.letters.specs.Texts.{text_answer, text_bytes, text_form, text_of};
ghost use Rattle.letters.specs.TextsLemmas.{text_lawful};

use crate::body::{BODY_SPACE, Body, padded};
use crate::refusal::Refusal;
use crate::text::{LONGEST_TEXT, Text};

impl Text {
    // The text of these bytes; more than sixty, and any that is not a printable character, are refused with 20.
    pub fn new(bytes: &[u8]) -> Result<Text, Refusal>
        ensures { as_answer text_bytes result ≡ text_answer bytes.now }
    {
        match first_wrong(bytes) {
            None => Ok(Text::make(bytes)),
            Some(_) => Err(Refusal::BadRecord),
        }
    }

    // The text of bytes that were checked.
    fn make(bytes: &[u8]) -> Text
        requires { text_wrong bytes.now ≡ None }
        ensures { text_bytes result ≡ bytes.now }
    {
        Text {
            chars: padded(bytes),
            len: bytes.len() as u8,
        }
    }

    // The characters, and zeros after them.
    fn padded_chars(&self) -> [u8; LONGEST_TEXT]
        ensures { result ≡ padded LONGEST_TEXT (text_bytes self.now) }
    {
        self.chars
    }

    // The characters.
    pub fn as_bytes(&self) -> &[u8]
        ensures { result.now ≡ text_bytes self.now }
    {
        &self.chars[0..self.len as usize]
    }
}

// The text of no characters.
impl Default for Text {
    ghost is_default = { λ t. text_bytes t ≡ [] };

    fn default() -> Text {
        Text {
            chars: [0; LONGEST_TEXT],
            len: 0,
        }
    }
}

// The first byte at which these are not a text.
fn first_wrong(bytes: &[u8]) -> Option<u8>
    ensures { result ≡ text_wrong bytes.now }
{
    if bytes.len() > LONGEST_TEXT {
        return Some(LONGEST_TEXT as u8);
    }
    let place = unprintable(bytes)?;
    Some(place as u8)
}

// The first byte that is not a printable character.
fn unprintable(bytes: &[u8]) -> Option<usize>
    ensures { result ≡ position (λ b. not (printable b)) bytes.now }
{
    bytes.iter().position(|b| !(b' '..=b'~').contains(b))
}

impl Body for Text {
    ghost form = { text_form };

    ghost blank = { text_of [] };

    ghost lawful = { text_lawful };

    fn has_kind(kind: u8) -> bool {
        kind == 1
    }

    fn has_length(_kind: u8, len: u8) -> bool {
        len as usize <= LONGEST_TEXT
    }

    fn wrong(_kind: u8, bytes: &[u8]) -> Option<u8> {
        first_wrong(bytes)
    }

    fn read(_kind: u8, bytes: &[u8]) -> Text {
        Text::make(bytes)
    }

    fn kind(&self) -> u8 {
        1
    }

    fn len(&self) -> u8 {
        self.len
    }

    fn to_bytes(&self) -> [u8; BODY_SPACE] {
        self.padded_chars()
    }

    fn make_blank() -> Text {
        Text::default()
    }
}
