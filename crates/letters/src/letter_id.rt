// Names of letters.
ghost use Rattle.std.specs.Prelude.{◌<◌};

mod naming;

// A letter's name, written 2.5: the seat that posted it (0 to 15) and its number there, counted from 1.
#[derive(Clone, Copy, PartialEq, Eq)]
pub struct LetterId {
    poster: u8,
    number: u16,
    ghost seated: { poster < 16 },
    ghost counted: { 0 < number },
}
