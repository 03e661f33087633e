// Pair: two carriers as one. A letter goes to both, and a seat's list is the first's followed by the second's.
#![tactic(auto)]

ghost use Rattle.std.specs.Prelude.{◌≡◌, Ok, OnOk};
ghost use Rattle.std.specs.Result.{OnErr};
ghost use Rattle.letters.specs.Refusals.{as_answer};
ghost use Rattle.carriers.specs.Meaning.{draw_answer, put_answer};
ghost use Rattle.pair.specs.PairLemmas.{lawful_both, still_both};
ghost use Rattle.pair.specs.Pairs.{CarrierDraw, CarrierPut, CarriersDraw, OneRests, Rested, both, pair_answer};

use carriers::carrier::Carrier;
use letters::letter::Letter;
use letters::parts::Parts;
use letters::refusal::Refusal;

// Two carriers for one kind of body and equally many seats, such as cable and mobile data.
#[derive(Drop)]
pub struct Pair<C: Carrier, D: Carrier<Body = C::Body>> {
    first: C,
    second: D,
    // Of each of the two; it never changes.
    seats: u8,
    ghost seated: { seats ≡ (C.Carrier.meaning first).seats },
    ghost level: { (C.Carrier.meaning first).seats ≡ (D.Carrier.meaning second).seats },
}

impl<C: Carrier, D: Carrier<Body = C::Body>> Pair<C, D> {
    // Whether the two can be a pair: 6 where they have unequal numbers of seats.
    pub fn check(first: &C, second: &D) -> Result<(), Refusal>
        ensures { as_answer (λ u. u) result ≡ pair_answer (C.Carrier.meaning first.now).seats (D.Carrier.meaning second.now).seats }
    {
        if first.seats() == second.seats() {
            Ok(())
        } else {
            Err(Refusal::WrongSeatCount)
        }
    }

    // The pair of two that were checked.
    pub fn new(first: C, second: D) -> Self
        requires { pair_answer (C.Carrier.meaning first).seats (D.Carrier.meaning second).seats ≡ Ok tt }
        ensures { (result.first ≡ first) × (result.second ≡ second) }
    {
        Pair {
            seats: first.seats(),
            first,
            second,
        }
    }
}

impl<C: Carrier, D: Carrier<Body = C::Body>> Carrier for Pair<C, D> {
    type Body = C::Body;

    ghost meaning = { λ p. both (C.Carrier.meaning p.first) (D.Carrier.meaning p.second) };

    ghost lawful = { λ p. lawful_both (C.Carrier.meaning p.first) (D.Carrier.meaning p.second) (C.Carrier.lawful p.first) (D.Carrier.lawful p.second) };

    ghost puts = { λ p m after. C.Carrier.puts p.first m after.first × D.Carrier.puts p.second m after.second };

    ghost rests = { λ p after. Rested C.Carrier.rests p.first after.first × Rested D.Carrier.rests p.second after.second × (after.seats ≡ p.seats) };

    ghost still = { λ p after rest. still_both C.Carrier.meaning D.Carrier.meaning C.Carrier.rests D.Carrier.rests C.Carrier.still D.Carrier.still p.first after.first p.second after.second rest.0 rest.1 };

    fn seats(&self) -> u8 {
        self.seats
    }

    fn waits(&self, seat: u8) -> u32 {
        let ahead = self.first.waits(seat);
        ahead.saturating_add(self.second.waits(seat))
    }

    fn fits(&self, poster: u8) -> bool {
        self.first.fits(poster) & self.second.fits(poster)
    }

    fn put(&mut self, letter: &Letter<C::Body>) -> Result<(), Refusal>
        ensures answer { as_answer (λ u. u) result ≡ put_answer (⟦<Self as Carrier>⟧.meaning self.old) letter.now.poster }
        ensures leaves { CarrierPut ⟦<Self as Carrier>⟧ result self.old letter.now self.new }
        ensures once { OnOk result (⟦<Self as Carrier>⟧.puts self.old letter.now self.new) }
        ensures first { CarrierPut C.Carrier result self.old.first letter.now self.new.first }
        ensures second { CarrierPut D.Carrier result self.old.second letter.now self.new.second }
        ensures untouched { OnErr result (self.new ≡ self.old) }
        ensures rests { OnErr result (⟦<Self as Carrier>⟧.rests self.old self.new) }
    {
        let poster = letter.poster();
        if poster >= self.seats {
            return Err(Refusal::UnknownSeat);
        }
        if !self.first.fits(poster) || !self.second.fits(poster) {
            return Err(Refusal::CarrierFull);
        }
        let _ = self.first.put(letter);
        self.second.put(letter)
    }

    fn draw(&mut self, seat: u8, place: u32, parts: &mut Parts<C::Body>) -> Result<(), Refusal>
        ensures answer { as_answer (λ u. u) result ≡ draw_answer (⟦<Self as Carrier>⟧.meaning self.old) seat place }
        ensures leaves { CarrierDraw ⟦<Self as Carrier>⟧ result self.old seat place self.new parts.old parts.new }
        ensures one { CarriersDraw C.Carrier D.Carrier result self.old.first self.old.second seat place self.new.first self.new.second }
        ensures asked { OnErr result (OneRests C.Carrier.rests D.Carrier.rests self.old.first self.new.first self.old.second self.new.second) }
        ensures rests { OnErr result (⟦<Self as Carrier>⟧.rests self.old self.new) }
    {
        let ahead = self.first.waits(seat);
        // A place of 2^32 - 1 is below no answer of `waits`, so the first refuses it for both.
        if place < ahead || place == u32::MAX {
            return self.first.draw(seat, place, parts);
        }
        self.second.draw(seat, place - ahead, parts)
    }
}
