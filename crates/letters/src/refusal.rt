// Why a call refuses.
ghost use Rattle.std.specs.Prelude.{◌≡◌, Some, decimal};
ghost use Rattle.letters.specs.Refusals.{reason_of};

use std::error::Error;
use std::fmt;

// A refusal. Its number stands in the definition `reason_of`, and is what is printed.
#[derive(Clone, Copy, Debug, PartialEq, Eq)]
pub enum Refusal {
    // the quota is 0 or above 256
    BadQuota,
    // the name is 0 or already enrolled
    BadName,
    // sixteen seats are enrolled, or one more would let the room hold more than 256 letters
    TooManySeats,
    // a room without seats cannot open
    NoSeats,
    // a letter table, a buffer or a queue has too few places
    TooShort,
    // a carrier has the wrong number of seats
    WrongSeatCount,
    // a letter waits on the carrier at the opening
    LetterWaiting,
    // there is no such seat
    UnknownSeat,
    // the seat has posted as many letters as the quota lets it
    QuotaSpent,
    // the seat's docket is out or parked
    DocketTaken,
    // the carrier has no place for one more letter
    CarrierFull,
    // the docket is not the one that is out at its seat
    WrongDocket,
    // no docket is parked at the seat
    NotParked,
    // the place is past the letters that wait
    UnknownPlace,
    // no held letter is ready
    NoneReady,
    // a docket is out or parked, so the room cannot close
    DocketsOpen,
    // the sheet has fewer places than a log may have letters
    TooFewPlaces,
    // as many letters are entered as the sheet has places
    SheetFull,
    // the log lacks the docket's letter
    LetterMissing,
    // values that no letter record has
    BadRecord,
}

impl Refusal {
    // 1 to 20, as docs/REFUSALS.md lists them.
    pub fn number(self) -> u8
        ensures { result ≡ (reason_of self).number }
    {
        match self {
            Refusal::BadQuota => 1,
            Refusal::BadName => 2,
            Refusal::TooManySeats => 3,
            Refusal::NoSeats => 4,
            Refusal::TooShort => 5,
            Refusal::WrongSeatCount => 6,
            Refusal::LetterWaiting => 7,
            Refusal::UnknownSeat => 8,
            Refusal::QuotaSpent => 9,
            Refusal::DocketTaken => 10,
            Refusal::CarrierFull => 11,
            Refusal::WrongDocket => 12,
            Refusal::NotParked => 13,
            Refusal::UnknownPlace => 14,
            Refusal::NoneReady => 15,
            Refusal::DocketsOpen => 16,
            Refusal::TooFewPlaces => 17,
            Refusal::SheetFull => 18,
            Refusal::LetterMissing => 19,
            Refusal::BadRecord => 20,
        }
    }
}

// Written as its number.
impl fmt::Display for Refusal {
    ghost output = { λ why. Some (decimal (reason_of why).number) };

    fn fmt<W: fmt::Write>(&self, f: &mut fmt::Formatter<W>) -> fmt::Result {
        let number = self.number();
        write!(f, "{number}")
    }
}

impl Error for Refusal {}
