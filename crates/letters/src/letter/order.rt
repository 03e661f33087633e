// How letters relate to one another, and when one may be shown.
ghost use Rattle.std.specs.Prelude.{◌≡◌, ◌+◌, Decides, ◌==◌};
ghost use Rattle.letters.specs.Letters.{entry_at, number_of};
ghost use Rattle.letters.specs.Order.{Covers, Ready, SameLetter, SideBySide, all_known, covers, ready, same_letter, side_by_side};

use crate::letter::Letter;
use crate::letter_id::LetterId;
use crate::stamp::Stamp;

impl Stamp {
    // Whether the entry at the letter's poster is at least its number.
    pub fn covers(&self, id: LetterId) -> bool
        ensures { result ≡ covers self.now id.poster id.number }
    {
        id.number() <= self.entries[id.poster() as usize]
    }
}

impl<B: Copy> Letter<B> {
    // Whether its poster had posted or shown that letter by then.
    pub fn covers(&self, id: LetterId) -> bool
        ensures answer { result ≡ covers self.now.stamp id.poster id.number }
        ensures decides { Decides result (Covers self.now id.poster id.number) }
    {
        self.stamp.covers(id)
    }

    // Whether neither letter covers the other.
    pub fn side_by_side(&self, other: &Letter<B>) -> bool
        ensures answer { result ≡ side_by_side self.now other.now }
        ensures decides { Decides result (SideBySide self.now other.now) }
    {
        !self.stamp.covers(other.id()) && !other.stamp.covers(self.id())
    }

    // Whether poster and number agree.
    pub fn is_same(&self, other: &Letter<B>) -> bool
        ensures answer { result ≡ same_letter self.now other.now }
        ensures decides { Decides result (SameLetter self.now other.now) }
    {
        self.id() == other.id()
    }

    // Whether the letter may be shown next at a seat with this clock, in a room of n seats with the quota q.
    pub fn is_ready(&self, n: u8, q: u16, seat: u8, clock: &Stamp) -> bool
        ensures answer { result ≡ ready n q seat clock.now self.now }
        ensures decides { Decides result (Ready n q seat (entry_at clock.now) self.now) }
    {
        let number = self.number();
        self.poster < n
            && self.poster != seat
            && number <= q
            && is_next(number, clock.entries[self.poster as usize])
            && self.is_all_known(clock)
    }

    // Whether each entry but the poster's own is at most the clock's.
    fn is_all_known(&self, clock: &Stamp) -> bool
        ensures { result ≡ all_known clock.now self.now }
    {
        (0..16).all(|p| p == self.poster || self.stamp.entry(p) <= clock.entry(p))
    }
}

fn is_next(number: u16, shown: u16) -> bool
    ensures { result ≡ (number == shown + 1) }
{
    shown.checked_add(1) == Some(number)
}
