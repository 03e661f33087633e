// The kinds of bodies, as the program is asked for them.
ghost use Rattle.std.specs.Prelude.{◌≡◌, ◌↔◌, Ok, Some, codes};
ghost use Rattle.listing.specs.Asking.{AsksJobs, AsksTexts};
ghost use Rattle.listing.specs.declared.kind.Kind.TheVariants.{Job, Text};

use std::str::FromStr;

// Which kind of body the letters of a file have.
#[derive(Clone, Copy)]
pub enum Kind {
    Text,
    Job,
}

// A word that names no kind of body.
#[derive(Clone, Copy)]
pub struct UnknownKind;

impl FromStr for Kind {
    type Err = UnknownKind;

    ghost from_str_gives = { λ word kind. ((kind ≡ Ok Text) ↔ (word ≡ codes "text")) × ((kind ≡ Ok Job) ↔ (word ≡ codes "job")) };

    fn from_str(word: &str) -> Result<Kind, UnknownKind> {
        match word {
            "text" => Ok(Kind::Text),
            "job" => Ok(Kind::Job),
            _ => Err(UnknownKind),
        }
    }
}

// Which kind of body the arguments ask for: behind the program's name there is one word, and it names a kind.
pub fn kind_asked(args: &[String]) -> Option<Kind>
    ensures text { (result ≡ Some Text) ↔ AsksTexts args.now }
    ensures job { (result ≡ Some Job) ↔ AsksJobs args.now }
{
    match args {
        [_program, word] => word.as_str().parse().ok(),
        _ => None,
    }
}
