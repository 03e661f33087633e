// Masks: bit i says that seat i has yet to draw.
ghost use Rattle.std.specs.Prelude.{◌≡◌, ◌<◌, ◌≤◌, ◌==◌, count_ones};
ghost use Rattle.spool.specs.Masks.{all_but, full, marked, seats_marked};

// Entry n is the mask of n seats, 2^n - 1.
const FULL_MASKS: [u16; 17] = [
    0, 1, 3, 7, 15, 31, 63, 127, 255, 511, 1023, 2047, 4095, 8191, 16383, 32767, 65535,
];

// The mask of all of so many seats.
fn full_mask(seats: u8) -> u16
    requires { seats ≤ 16 }
    ensures { result ≡ full seats }
{
    FULL_MASKS[seats as usize]
}

// The mask of all seats but the poster.
pub(crate) fn all_but(seats: u8, poster: u8) -> u16
    requires { (seats ≤ 16) × (poster < 16) }
    ensures { result ≡ all_but seats poster }
{
    full_mask(seats) ^ (1 << poster)
}

// Whether a seat has yet to draw.
pub(crate) fn marks(mask: u16, seat: u8) -> bool
    requires { seat < 16 }
    ensures { result ≡ marked mask seat }
{
    (mask >> seat) & 1 == 1
}

// Whether no seat has yet to draw: the ones in a mask are as many as the seats that have.
pub(crate) fn is_done(mask: u16) -> bool
    ensures ones { result ≡ (count_ones mask == 0) }
    ensures seats { count_ones mask ≡ seats_marked mask 16 }
    ensures none { result ≡ (seats_marked mask 16 == 0) }
{
    mask.count_ones() == 0
}
