// Making lines, and lines as a carrier.
ghost use Rattle.std.specs.Prelude.{◌≡◌, ℕ, ◌+◌, ◌*◌, ◌<◌, Decides, [], ◌∷◌, ◌++◌, length, Ok, OnOk, slice_index, slice_index_or, slice_set};
ghost use Rattle.std.specs.Result.{OnErr};
ghost use Rattle.letters.specs.Letters.{parts_of};
ghost use Rattle.letters.specs.Refusals.{as_answer};
ghost use Rattle.carriers.specs.Meaning.{DrawLeaves, Drawn, Empty, PutLeaves, draw_answer, put_answer};
ghost use Rattle.carriers.specs.LineLemmas.{lawful_lines};
ghost use Rattle.carriers.specs.Appending.{Appends};
ghost use Rattle.carriers.specs.RestingLemmas.{as_it_was};
ghost use Rattle.carriers.specs.Lines.{HasPlaces, lines_answer, lines_of, table_drawn, table_put};

use crate::carrier::Carrier;
use crate::lines::Lines;
use crate::queue::{push_to, remove_from};
use letters::body::Body;
use letters::letter::Letter;
use letters::parts::Parts;
use letters::refusal::Refusal;

impl<'a, B: Body> Lines<'a, B> {
    // Whether lines for so many seats, each with a queue of so many places, can be made of the letters: 6, then 5.
    pub fn check(places: &[Letter<B>], seats: u8, size: u32) -> Result<(), Refusal>
        ensures { as_answer (λ u. u) result ≡ lines_answer seats size (length places.now) }
    {
        if seats == 0 || seats > 16 {
            return Err(Refusal::WrongSeatCount);
        }
        if size == 0 || places.len() < seats as usize * size as usize {
            return Err(Refusal::TooShort);
        }
        Ok(())
    }

    // Lines with nothing waiting, of values that were checked.
    pub fn new(places: &'a mut [Letter<B>], seats: u8, size: u32) -> Lines<'a, B>
        requires { lines_answer seats size (length places.old) ≡ Ok tt }
        ensures seats { (lines_of result).seats ≡ seats }
        ensures size { result.size ≡ size }
        ensures empty { Empty (lines_of result) }
        ensures table { result.places.now ≡ places.old }
        ensures lender { result.places.ghost_name ≡ places.entry.ghost_name }
    {
        Lines {
            places,
            seats,
            size,
            counts: [0; 16],
        }
    }

    // How many letters wait in a seat's queue; past the sixteen none do.
    fn queued(&self, seat: u8) -> u32
        ensures { result ≡ slice_index self.now.counts seat }
    {
        self.counts.get(seat as usize).copied().unwrap_or(0)
    }

    // One letter more at the end of a seat's queue.
    fn append(&mut self, seat: u8, letter: &Letter<B>)
        requires { (seat < self.old.seats) × (slice_index self.old.counts seat < self.old.size) }
        ensures seats { self.new.seats ≡ self.old.seats }
        ensures size { self.new.size ≡ self.old.size }
        ensures counts { self.new.counts ≡ slice_set self.old.counts seat (slice_index self.old.counts seat + 1) }
        ensures own { (lines_of self.new).waiting seat ≡ (lines_of self.old).waiting seat ++ (letter.now ∷ []) }
        ensures others { (k : ℕ) → ¬ (k ≡ seat) → (lines_of self.new).waiting k ≡ (lines_of self.old).waiting k }
        ensures table { self.new.places.now ≡ slice_set self.old.places.now (seat * self.old.size + slice_index self.old.counts seat) letter.now }
        ensures lender { self.new.places.ghost_name ≡ self.old.places.ghost_name }
    {
        let at = seat as usize;
        let count = self.counts[at];
        let size = self.size as usize;
        let start = at * size;
        push_to(&mut self.places[start..start + size], count, letter);
        self.counts[at] = count + 1;
    }

    // Takes a place out of a seat's queue.
    fn take(&mut self, seat: u8, place: u32) -> Letter<B>
        requires { (seat < self.old.seats) × (place < slice_index self.old.counts seat) }
        ensures size { self.new.size ≡ self.old.size }
        ensures lists { Drawn (lines_of self.old) seat place (lines_of self.new) }
        ensures taken { result ≡ slice_index_or ((lines_of self.old).waiting seat) place result }
        ensures table { self.new.places.now ≡ table_drawn self.old seat place }
        ensures lender { self.new.places.ghost_name ≡ self.old.places.ghost_name }
    {
        let at = seat as usize;
        let count = self.counts[at];
        let size = self.size as usize;
        let start = at * size;
        let letter = remove_from(&mut self.places[start..start + size], count, place);
        self.counts[at] = count - 1;
        letter
    }
}

impl<'a, B: Body> Carrier for Lines<'a, B> {
    type Body = B;

    ghost meaning = { λ l. lines_of l };

    ghost lawful = { λ l. lawful_lines l };

    ghost puts = { λ l m after. Appends (lines_of l) m.poster m (lines_of after) };

    ghost rests = { λ l after. after ≡ l };

    ghost still = { as_it_was lines_of };

    fn seats(&self) -> u8 {
        self.seats
    }

    fn waits(&self, seat: u8) -> u32 {
        if seat < self.seats {
            self.counts[seat as usize]
        } else {
            0
        }
    }

    fn fits(&self, poster: u8) -> bool
        ensures answer { result ≡ (lines_of self.now).fits poster }
        ensures decides { Decides result (HasPlaces self.now poster) }
    {
        poster < self.seats
            && (0..self.seats).all(|seat| seat == poster || self.queued(seat) < self.size)
    }

    fn put(&mut self, letter: &Letter<B>) -> Result<(), Refusal>
        ensures answer { as_answer (λ u. u) result ≡ put_answer (lines_of self.old) letter.now.poster }
        ensures leaves { PutLeaves result (lines_of self.old) letter.now.poster letter.now (lines_of self.new) }
        ensures once { OnOk result (Appends (lines_of self.old) letter.now.poster letter.now (lines_of self.new)) }
        ensures table { OnOk result (self.new.places.now ≡ table_put self.old letter.now) }
        ensures lender { self.new.places.ghost_name ≡ self.old.places.ghost_name }
        ensures size { self.new.size ≡ self.old.size }
        ensures rests { OnErr result (self.new ≡ self.old) }
    {
        let poster = letter.poster();
        if poster >= self.seats {
            return Err(Refusal::UnknownSeat);
        }
        if !self.fits(poster) {
            return Err(Refusal::CarrierFull);
        }
        for other in 0..self.seats {
            if other != poster {
                self.append(other, letter);
            }
        }
        Ok(())
    }

    fn draw(&mut self, seat: u8, place: u32, parts: &mut Parts<B>) -> Result<(), Refusal>
        ensures answer { as_answer (λ u. u) result ≡ draw_answer (lines_of self.old) seat place }
        ensures leaves { DrawLeaves parts_of result (lines_of self.old) seat place (lines_of self.new) parts.old parts.new }
        ensures table { OnOk result (self.new.places.now ≡ table_drawn self.old seat place) }
        ensures lender { self.new.places.ghost_name ≡ self.old.places.ghost_name }
        ensures size { self.new.size ≡ self.old.size }
        ensures rests { OnErr result (self.new ≡ self.old) }
    {
        if seat >= self.seats {
            return Err(Refusal::UnknownSeat);
        }
        if place >= self.counts[seat as usize] {
            return Err(Refusal::UnknownPlace);
        }
        *parts = self.take(seat, place).parts();
        Ok(())
    }
}
