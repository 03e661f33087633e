// Finding a letter in a part of a table.
ghost use Rattle.std.specs.Prelude.{◌≡◌};
ghost use Rattle.std.specs.Option.{option_map};
ghost use Rattle.letters.specs.Letters.{entry_at};
ghost use Rattle.letters.specs.Order.{Ready, ready};
ghost use Rattle.seats.specs.Outcomes.{first_passing, is_called};
ghost use Rattle.seats.specs.Scans.{FirstSuch, due};

use letters::letter::Letter;
use letters::stamp::Stamp;

// The first letter with this name, with its place. The name may be one that no letter has.
pub fn find_named<B: Copy>(
    letters: &[Letter<B>],
    poster: u8,
    number: u16,
) -> Option<(usize, &Letter<B>)>
    ensures { option_map (λ p. (p.0, p.1.now)) result ≡ first_passing (is_called poster number) 0 letters.now }
{
    // No letter is copied: not those that are looked at, and not the one that is found.
    for (at, letter) in letters.iter().enumerate() {
        if is_named(letter, poster, number) {
            return Some((at, letter));
        }
    }
    None
}

fn is_named<B: Copy>(letter: &Letter<B>, poster: u8, number: u16) -> bool
    ensures { result ≡ is_called poster number letter.now }
{
    letter.poster() == poster && letter.number() == number
}

// The first letter that a seat with this clock may show, in order of arrival, with its place; the room has `count` seats
// and the quota `quota`.
pub fn first_ready<'h, B: Copy>(
    hold: &'h [Letter<B>],
    count: u8,
    quota: u16,
    seat: u8,
    clock: &Stamp,
) -> Option<(usize, &'h Letter<B>)>
    ensures answer { option_map (λ p. (p.0, p.1.now)) result ≡ first_passing (ready count quota seat clock.now) 0 hold.now }
    ensures decides { FirstSuch (Ready count quota seat (entry_at clock.now)) hold.now (option_map (λ p. (p.0, p.1.now)) result) }
{
    'arrivals: for (at, letter) in hold.iter().enumerate() {
        if !is_due(letter, count, quota, seat, clock) {
            continue;
        }
        let poster = letter.poster() as usize;
        let known = letter.stamp().entries.iter().zip(&clock.entries);
        for (other, (stamped, shown)) in known.enumerate() {
            if stamped > shown && other != poster {
                continue 'arrivals;
            }
        }
        return Some((at, letter));
    }
    None
}

// Whether the letter is the next one from another seat of the room.
fn is_due<B: Copy>(letter: &Letter<B>, count: u8, quota: u16, seat: u8, clock: &Stamp) -> bool
    ensures { result ≡ due count quota seat clock.now letter.now }
{
    let poster = letter.poster();
    let number = letter.number();
    // A letter's number is not 0. What most letters of a hold fail is tested first.
    number - 1 == clock.entries[poster as usize]
        && poster < count
        && poster != seat
        && number <= quota
}
