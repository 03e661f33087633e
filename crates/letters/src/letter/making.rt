// Making letters, and reading their parts.
ghost use Rattle.std.specs.Prelude.{◌≡◌, sum, Ok};
ghost use Rattle.letters.specs.Letters.{blank_letter, entry_at, letter_answer, letter_check, letter_name, number_of, parts_of};
ghost use Rattle.letters.specs.Names.{name_of};
ghost use Rattle.letters.specs.Refusals.{as_answer};

use crate::letter::Letter;
use crate::letter_id::LetterId;
use crate::parts::Parts;
use crate::refusal::Refusal;
use crate::stamp::Stamp;

impl Stamp {
    // The entry for a seat; past the sixteen it is 0.
    pub fn entry(&self, seat: u8) -> u16
        ensures { result ≡ entry_at self.now seat }
    {
        if seat >= 16 {
            return 0;
        }
        self.entries[seat as usize]
    }

    // The sum of the entries: of a clock, how many letters its seat has posted and shown.
    pub fn sum(&self) -> u32
        ensures { result ≡ sum self.now.entries }
    {
        self.entries.iter().map(|entry| u32::from(*entry)).sum()
    }
}

impl<B: Copy> Letter<B> {
    // The letter of parts that were checked, as a post makes it.
    pub fn make(parts: Parts<B>) -> Letter<B>
        requires { letter_check parts ≡ Ok tt }
        ensures { parts_of result ≡ parts }
    {
        Letter {
            stamp: parts.stamp,
            poster: parts.poster,
            body: parts.body,
        }
    }

    // The letter of any parts; those that no letter can have are refused with 20.
    pub fn new(parts: Parts<B>) -> Result<Letter<B>, Refusal>
        ensures { as_answer parts_of result ≡ letter_answer parts }
    {
        parts.check()?;
        Ok(Letter::make(parts))
    }

    // The plainest letter that carries this body: 0.1, stamped 1 throughout. It fills tables and lends its parts.
    pub fn blank(body: B) -> Letter<B>
        ensures { parts_of result ≡ parts_of (blank_letter body) }
    {
        Letter::make(Parts {
            stamp: Stamp { entries: [1; 16] },
            poster: 0,
            body,
        })
    }

    // The stamp, the poster and the body.
    pub fn parts(&self) -> Parts<B>
        ensures { result ≡ parts_of self.now }
    {
        Parts {
            stamp: self.stamp,
            poster: self.poster,
            body: self.body,
        }
    }

    pub fn stamp(&self) -> &Stamp
        ensures { result.now ≡ self.now.stamp }
    {
        &self.stamp
    }

    pub fn poster(&self) -> u8
        ensures { result ≡ self.now.poster }
    {
        self.poster
    }

    pub fn body(&self) -> &B
        ensures { result.now ≡ self.now.body }
    {
        &self.body
    }

    // How many letters its poster had posted with this one.
    pub fn number(&self) -> u16
        ensures { result ≡ number_of self.now }
    {
        self.stamp.entries[self.poster as usize]
    }

    // Its name.
    pub fn id(&self) -> LetterId
        ensures { name_of result ≡ letter_name self.now }
    {
        LetterId::of(self.poster, self.number())
    }
}
