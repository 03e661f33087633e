// Why a file is not listed, or not to its end.
ghost use Rattle.std.specs.Prelude.{◌≡◌};
ghost use Rattle.listing.specs.declared.failure.Failure.TheVariants.{Io, Usage};

use std::alloc::AllocError;
use std::fmt::{Display, Formatter};
use std::{fmt, io};

#[derive(Drop)]
pub enum Failure {
    // the arguments ask for no kind of body
    Usage,
    // reading or printing failed, or memory ran out
    Io(io::Error),
}

impl Display for Failure {
    fn fmt<W: fmt::Write>(&self, f: &mut Formatter<W>) -> fmt::Result {
        match self {
            Failure::Usage => f.write_str(
                "usage: listing text|job < FILE (the kind of body that the letters have)",
            ),
            Failure::Io(why) => write!(f, "listing: {why}"),
        }
    }
}

impl From<io::Error> for Failure {
    ghost from_gives = { λ why failure. failure ≡ Io why };

    fn from(why: io::Error) -> Failure {
        Failure::Io(why)
    }
}

impl From<AllocError> for Failure {
    ghost from_gives = { λ why failure. ¬ (failure ≡ Usage) };

    fn from(why: AllocError) -> Failure {
        Failure::Io(io::Error::from(why))
    }
}
