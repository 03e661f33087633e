// Delivery: what one seat puts on a carrier, another draws.
#![tactic(auto)]

ghost use Rattle.std.specs.Prelude.{◌≡◌, OnOk, length, replicate};
ghost use Rattle.carriers.specs.Lines.{put_places};
ghost use Rattle.std.specs.Result.{OnErr};
ghost use Rattle.letters.specs.Letters.{parts_of};
ghost use Rattle.letters.specs.Refusals.{as_answer};
ghost use Rattle.delivery.specs.Passing.{Passes, delivery_answer, parts_by, pass_answer};

use carriers::carrier::Carrier;
use carriers::lines::Lines;
use letters::body::Body;
use letters::letter::Letter;
use letters::parts::Parts;
use letters::refusal::Refusal;

// Puts a letter on a carrier of any make, and draws what then waits first for a seat. It looks first whether both will be
// accepted, and moves nothing where one would not.
pub fn put_and_draw<C: Carrier>(
    carrier: &mut C,
    letter: &Letter<C::Body>,
    seat: u8,
    parts: &mut Parts<C::Body>,
) -> Result<(), Refusal>
    ensures answer { as_answer (λ u. u) result ≡ pass_answer (C.meaning carrier.old) letter.now.poster seat }
    ensures passes { Passes C.meaning C.puts result carrier.old letter.now seat parts.old carrier.new parts.new }
{
    let poster = letter.poster();
    if poster >= carrier.seats() {
        return Err(Refusal::UnknownSeat);
    }
    if !carrier.fits(poster) {
        return Err(Refusal::CarrierFull);
    }
    if seat >= carrier.seats() {
        return Err(Refusal::UnknownSeat);
    }
    // The letter itself will wait for every other seat.
    if seat == poster && carrier.waits(seat) == 0 {
        return Err(Refusal::UnknownPlace);
    }
    let _ = carrier.put(letter);
    carrier.draw(seat, 0, parts)
}

// Makes lines of lent letters, puts one letter on them and draws it at another seat. A refusal leaves the letters as they were.
pub fn over_lines<B: Body>(
    places: &mut [Letter<B>],
    seats: u8,
    size: u32,
    letter: &Letter<B>,
    seat: u8,
    parts: &mut Parts<B>,
) -> Result<(), Refusal>
    ensures answer { as_answer (λ u. u) result ≡ delivery_answer seats size (length places.old) letter.now.poster seat }
    ensures filled { parts.new ≡ parts_by (delivery_answer seats size (length places.old) letter.now.poster seat) (parts_of letter.now) parts.old }
    ensures kept { OnErr result (places.new ≡ places.old) }
    ensures table { OnOk result (places.new ≡ put_places size (replicate 16 0) letter.now.poster letter.now places.old seats) }
{
    Lines::check(places, seats, size)?;
    // What lines refuse is refused before they are lent the letters.
    let poster = letter.poster();
    if poster >= seats || seat >= seats {
        return Err(Refusal::UnknownSeat);
    }
    if seat == poster {
        return Err(Refusal::UnknownPlace);
    }
    let mut lines = Lines::new(places, seats, size);
    let _ = lines.put(letter);
    lines.draw(seat, 0, parts)
}

#[cfg(test)]
mod tests {
    use crate::{over_lines, put_and_draw};
    use carriers::lines::Lines;
    use letters::job::Job;
    use letters::letter::Letter;
    use letters::parts::Parts;
    use letters::text::Text;
    use std::test::Fail;

    #[test]
    fn a_text_is_drawn(rt: HostRuntime) -> Result<(), Fail> {
        let Ok(text) = Text::new(b"hello") else {
            return Err(Fail::new("a text was refused"));
        };
        let Ok(blank) = Text::new(b"") else {
            return Err(Fail::new("no text was refused"));
        };
        let letter = Letter::blank(text);
        let mut places = [letter; 6];
        let mut parts = Parts {
            poster: 9,
            ..Letter::blank(blank).parts()
        };
        assert!(rt; over_lines(&mut places, 3, 2, &letter, 1, &mut parts).is_ok());
        assert_eq!(rt; parts.poster, 0);
        assert!(rt; parts.body.as_bytes() == b"hello".as_slice());
        Ok(())
    }

    #[test]
    fn a_job_is_drawn(rt: HostRuntime) -> Result<(), Fail> {
        let Ok(letter) = Letter::new(Parts {
            poster: 2,
            ..Letter::blank(Job::Add(7)).parts()
        }) else {
            return Err(Fail::new("a letter was refused"));
        };
        let mut places = [letter; 6];
        let mut parts = Parts {
            poster: 9,
            ..Letter::blank(Job::Add(0)).parts()
        };
        let mut lines = Lines::new(&mut places, 3, 2);
        assert!(rt; put_and_draw(&mut lines, &letter, 1, &mut parts).is_ok());
        assert_eq!(rt; parts.poster, 2);
        assert!(rt; matches!(parts.body, Job::Add(7)));
        Ok(())
    }
}
