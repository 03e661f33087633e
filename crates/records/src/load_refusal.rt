// Why a file is not loaded.
ghost use Rattle.std.specs.Prelude.{◌≡◌};
ghost use Rattle.records.specs.Files.{load_reason};

use crate::fault::Fault;

// A refusal of a whole file. Its number and values stand in the definition `load_reason`.
#[derive(Clone, Copy, Debug, PartialEq, Eq)]
pub enum LoadRefusal {
    // a record is bad
    Bad(Fault),
    // the table has fewer places than the file has letters
    TooShort,
}

impl LoadRefusal {
    pub fn number(self) -> u8
        ensures { result ≡ (load_reason self).number }
    {
        match self {
            LoadRefusal::Bad(_) => 20,
            LoadRefusal::TooShort => 5,
        }
    }
}
