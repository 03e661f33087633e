// A seat of a room.
ghost use Rattle.std.specs.Prelude.{◌≡◌, if◌then◌else◌, nat_lt};
ghost use Rattle.seats.specs.Seats.{allows, clock_at, log_length, with_clock_entry, with_clock_raised, with_docket_event, with_one_held_less, with_one_held_more};

use crate::parts::put;
use causality::docket::DocketState;
use letters::stamp::Stamp;

// What can happen to a seat's docket.
#[derive(Clone, Copy)]
pub enum DocketEvent {
    Post,
    Send,
    Park,
    Collect,
}

// What a room keeps for one box: its clock, how many letters it holds, and where its docket is.
#[derive(Clone, Copy)]
pub struct Seat {
    pub clock: Stamp,
    pub held: u16,
    pub docket: DocketState,
}

impl Seat {
    // Moves the docket's state, or answers false and leaves it.
    pub fn move_docket(&mut self, event: DocketEvent) -> bool
        ensures answer { result ≡ allows self.old.docket event }
        ensures seat { self.new ≡ with_docket_event self.old event }
    {
        match (self.docket, event) {
            (DocketState::Clear, DocketEvent::Post) => self.docket = DocketState::Out,
            (DocketState::Out, DocketEvent::Send) => self.docket = DocketState::Clear,
            (DocketState::Out, DocketEvent::Park) => self.docket = DocketState::Parked,
            (DocketState::Parked, DocketEvent::Collect) => self.docket = DocketState::Out,
            _ => return false,
        }
        true
    }

    // Sets the clock's entry for a seat; past the sixteen there is none.
    pub fn set_clock(&mut self, poster: u8, number: u16)
        ensures { self.new ≡ with_clock_entry self.old poster number }
    {
        put(&mut self.clock.entries, poster as usize, number);
    }

    // Raises the clock's entry for a seat by one, or answers false and leaves it where it is not below the quota.
    pub fn raise(&mut self, own: u8, quota: u16) -> bool
        ensures answer { result ≡ nat_lt (clock_at self.old own) quota }
        ensures seat { self.new ≡ (if result then with_clock_raised self.old own else self.old) }
    {
        let number = self.clock.entry(own);
        if number >= quota {
            return false;
        }
        self.set_clock(own, number + 1);
        true
    }

    // One held letter more, or false where the hold has no place.
    pub fn hold(&mut self, places: u16) -> bool
        ensures answer { result ≡ nat_lt self.old.held places }
        ensures seat { self.new ≡ (if result then with_one_held_more self.old else self.old) }
    {
        if self.held >= places {
            return false;
        }
        self.held += 1;
        true
    }

    // One held letter less.
    pub fn release(&mut self)
        ensures { self.new ≡ with_one_held_less self.old }
    {
        self.held = self.held.saturating_sub(1);
    }

    // The length of the seat's log: how many letters it has posted and shown.
    pub fn log_len(&self) -> u32
        ensures { result ≡ log_length self.now }
    {
        self.clock.sum()
    }
}
