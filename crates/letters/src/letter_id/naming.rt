// Making, reading and writing names of letters.
ghost use Rattle.std.specs.Prelude.{◌≡◌, ◌<◌, Some};
ghost use Rattle.letters.specs.Names.{name_answer, name_from, name_of, name_text};
ghost use Rattle.letters.specs.Refusals.{as_answer};

use crate::letter_id::LetterId;
use crate::refusal::Refusal;
use std::fmt;

impl LetterId {
    // The name with this poster and number; 20 where the poster is no seat or the number is 0.
    pub fn new(poster: u8, number: u16) -> Result<LetterId, Refusal>
        ensures { as_answer name_of result ≡ name_answer poster number }
    {
        if poster >= 16 || number == 0 {
            return Err(Refusal::BadRecord);
        }
        Ok(LetterId { poster, number })
    }

    // The name of a letter, whose poster is a seat and whose number is not 0.
    pub(crate) fn of(poster: u8, number: u16) -> LetterId
        requires { (poster < 16) × (0 < number) }
        ensures { name_of result ≡ name_from poster number }
    {
        LetterId { poster, number }
    }

    pub fn poster(&self) -> u8
        ensures { result ≡ self.now.poster }
    {
        self.poster
    }

    pub fn number(&self) -> u16
        ensures { result ≡ self.now.number }
    {
        self.number
    }
}

// Written 2.5: the poster, a point, the number.
impl fmt::Display for LetterId {
    ghost output = { λ id. Some (name_text id.poster id.number) };

    fn fmt<W: fmt::Write>(&self, f: &mut fmt::Formatter<W>) -> fmt::Result {
        let poster = self.poster;
        let number = self.number;
        write!(f, "{poster}.{number}")
    }
}
