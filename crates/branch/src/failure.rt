// Why the program does not come to its end.
ghost use Rattle.std.specs.Prelude.{◌≡◌};
ghost use Rattle.branch.specs.declared.failure.Failure.TheVariants.{Io};

use std::io;

#[derive(Drop)]
pub enum Failure {
    // it was called with an argument
    Usage,
    // reading or printing failed, or memory ran out
    Io(io::Error),
}

impl From<io::Error> for Failure {
    ghost from_gives = { λ why failure. failure ≡ Io why };

    fn from(why: io::Error) -> Failure {
        Failure::Io(why)
    }
}
