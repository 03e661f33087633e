// Making a spool, and a spool as a carrier.
ghost use Rattle.std.specs.Prelude.{◌≡◌, ◌<◌, true, length, Ok, OnOk, slice_get};
ghost use Rattle.letters.specs.Letters.{parts_of};
ghost use Rattle.letters.specs.Refusals.{as_answer};
ghost use Rattle.carriers.specs.Appending.{Appends};
ghost use Rattle.carriers.specs.Meaning.{DrawLeaves, Drawn, Empty, PutLeaves, draw_answer, put_answer};
ghost use Rattle.carriers.specs.RestingLemmas.{as_it_was};
ghost use Rattle.std.specs.Result.{OnErr};
ghost use Rattle.std.specs.List.{count_by, enumerate_from, filter};
ghost use Rattle.std.specs.Option.{option_map};
ghost use Rattle.spool.specs.Masks.{marked};
ghost use Rattle.spool.specs.Rows.{mask_of, marks_at, spool_answer};
ghost use Rattle.spool.specs.SpoolLemmas.{lawful_spool};
ghost use Rattle.spool.specs.Spools.{AddsRow, DrawsRow, StandsAt, StrikesRow, place_of, spool_of};

use crate::Spool;
use crate::masks::{all_but, is_done, marks};
use crate::row_buffer::{ROW_SIZE, RowBuffer, mask_of};
use carriers::carrier::Carrier;
use letters::body::Body;
use letters::letter::Letter;
use letters::parts::Parts;
use letters::refusal::Refusal;
use std::marker::PhantomData;

impl<'a, B: Body> Spool<'a, B> {
    // Whether a spool for so many seats can be made of the bytes: 6, then 5.
    pub fn check(buffer: &[u8], seats: u8) -> Result<(), Refusal>
        ensures { as_answer (λ u. u) result ≡ spool_answer seats (length buffer.now) }
    {
        if seats == 0 || seats > 16 {
            return Err(Refusal::WrongSeatCount);
        }
        if buffer.len() < ROW_SIZE {
            return Err(Refusal::TooShort);
        }
        Ok(())
    }

    // A spool with nothing waiting, of values that were checked.
    pub fn new(buffer: &'a mut [u8], seats: u8) -> Spool<'a, B>
        requires { spool_answer seats (length buffer.old) ≡ Ok tt }
        ensures seats { result.seats ≡ seats }
        ensures empty { Empty (spool_of B.form B.blank result) }
        ensures buffer { (result.row_buffer.bytes.now ≡ buffer.old) × (result.row_buffer.bytes.ghost_name ≡ buffer.entry.ghost_name) }
    {
        Spool {
            row_buffer: RowBuffer { bytes: buffer },
            rows: 0,
            seats,
            body: PhantomData,
        }
    }

    // The row at a place of a seat's list, or none where the place is past those that wait.
    fn find(&self, seat: u8, place: u32) -> Option<usize>
        requires { seat < self.now.seats }
        ensures { StandsAt B.form B.blank self.now seat place result }
    {
        if place == u32::MAX {
            return None;
        }
        let (row, _) = nth_marked(self.row_buffer.rows(self.rows), seat, place as usize)?;
        Some(row)
    }

    // Clears a seat's bit in a row, and removes the row where no bit is left.
    fn strike(&mut self, row: usize, seat: u8)
        requires seat { seat < self.old.seats }
        requires row { row < self.old.rows }
        requires marked { marks_at self.old.row_buffer.bytes.now seat row ≡ true }
        ensures lists { Drawn (spool_of B.form B.blank self.old) seat (place_of B.form B.blank self.old seat row) (spool_of B.form B.blank self.new) }
        ensures row { StrikesRow self.old row seat self.new }
        ensures long { length self.new.row_buffer.bytes.now ≡ length self.old.row_buffer.bytes.now }
        ensures lender { self.new.row_buffer.bytes.ghost_name ≡ self.old.row_buffer.bytes.ghost_name }
    {
        let left = mask_of(&self.row_buffer.rows(self.rows)[row]) ^ (1 << seat);
        if is_done(left) {
            self.row_buffer.close_up(row, self.rows);
            self.rows -= 1;
        } else {
            self.row_buffer.set_mask(row, left);
        }
    }
}

// The row at a place among those with a seat's bit, with its number.
fn nth_marked(rows: &[[u8; ROW_SIZE]], seat: u8, place: usize) -> Option<(usize, &[u8; ROW_SIZE])>
    requires { seat < 16 }
    ensures { option_map (λ p. (p.0, p.1.now)) result ≡ slice_get (filter (λ p. marked (mask_of p.1) seat) (enumerate_from 0 rows.now)) place }
{
    rows.iter()
        .enumerate()
        .filter(|(_, row)| marks(mask_of(row), seat))
        .nth(place)
}

// How many of the rows have a seat's bit.
fn count_marked(rows: &[[u8; ROW_SIZE]], seat: u8) -> usize
    requires { seat < 16 }
    ensures { result ≡ count_by (λ row. marked (mask_of row) seat) rows.now }
{
    rows.iter().filter(|row| marks(mask_of(row), seat)).count()
}

impl<'a, B: Body> Carrier for Spool<'a, B> {
    type Body = B;

    ghost meaning = { λ s. spool_of B.form B.blank s };

    ghost lawful = { λ s. lawful_spool B.form B.blank s };

    ghost puts = { λ s m after. Appends (spool_of B.form B.blank s) m.poster m (spool_of B.form B.blank after) };

    ghost rests = { λ s after. after ≡ s };

    ghost still = { as_it_was (spool_of B.form B.blank) };

    fn seats(&self) -> u8 {
        self.seats
    }

    fn waits(&self, seat: u8) -> u32 {
        if seat >= self.seats {
            return 0;
        }
        let count = count_marked(self.row_buffer.rows(self.rows), seat);
        u32::try_from(count).unwrap_or(u32::MAX)
    }

    fn fits(&self, poster: u8) -> bool {
        poster < self.seats && self.row_buffer.bytes.len() - self.rows * ROW_SIZE >= ROW_SIZE
    }

    fn put(&mut self, letter: &Letter<B>) -> Result<(), Refusal>
        ensures answer { as_answer (λ u. u) result ≡ put_answer (spool_of B.form B.blank self.old) letter.now.poster }
        ensures leaves { PutLeaves result (spool_of B.form B.blank self.old) letter.now.poster letter.now (spool_of B.form B.blank self.new) }
        ensures once { OnOk result (Appends (spool_of B.form B.blank self.old) letter.now.poster letter.now (spool_of B.form B.blank self.new)) }
        ensures row { AddsRow B.form result self.old letter.now self.new }
        ensures long { length self.new.row_buffer.bytes.now ≡ length self.old.row_buffer.bytes.now }
        ensures lender { self.new.row_buffer.bytes.ghost_name ≡ self.old.row_buffer.bytes.ghost_name }
        ensures rests { OnErr result (self.new ≡ self.old) }
    {
        let poster = letter.poster();
        if poster >= self.seats {
            return Err(Refusal::UnknownSeat);
        }
        if !self.fits(poster) {
            return Err(Refusal::CarrierFull);
        }
        let mask = all_but(self.seats, poster);
        if !is_done(mask) {
            self.row_buffer.write(self.rows, letter);
            self.row_buffer.set_mask(self.rows, mask);
            self.rows += 1;
        }
        Ok(())
    }

    fn draw(&mut self, seat: u8, place: u32, parts: &mut Parts<B>) -> Result<(), Refusal>
        ensures answer { as_answer (λ u. u) result ≡ draw_answer (spool_of B.form B.blank self.old) seat place }
        ensures leaves { DrawLeaves parts_of result (spool_of B.form B.blank self.old) seat place (spool_of B.form B.blank self.new) parts.old parts.new }
        ensures row { DrawsRow B.form B.blank result self.old seat place self.new }
        ensures long { length self.new.row_buffer.bytes.now ≡ length self.old.row_buffer.bytes.now }
        ensures lender { self.new.row_buffer.bytes.ghost_name ≡ self.old.row_buffer.bytes.ghost_name }
        ensures rests { OnErr result (self.new ≡ self.old) }
    {
        if seat >= self.seats {
            return Err(Refusal::UnknownSeat);
        }
        let Some(row) = self.find(seat, place) else {
            return Err(Refusal::UnknownPlace);
        };
        self.row_buffer.read(row, parts);
        self.strike(row, seat);
        Ok(())
    }
}
