// A step with a docket in hand that is refused.
ghost use Rattle.std.specs.Prelude.{◌≡◌};

use crate::docket::{Docket, Returned};
use letters::refusal::Refusal;

// Why a step was refused, and the docket that it brought, if any, as it was.
pub struct Declined {
    pub refusal: Refusal,
    pub docket: Option<Docket>,
}

// A refused step that brought no docket.
impl From<Refusal> for Declined {
    ghost use Rattle.std.specs.Prelude.{None};

    ghost from_gives = { λ why declined. declined ≡ record { refusal = why; docket = None } };

    fn from(refusal: Refusal) -> Declined {
        Declined {
            refusal,
            docket: None,
        }
    }
}

// A refused step that brought one.
impl From<Returned> for Declined {
    ghost use Rattle.std.specs.Prelude.{Some};

    ghost from_gives = { λ back declined. declined ≡ record { refusal = back.refusal; docket = Some back.docket } };

    fn from(returned: Returned) -> Declined {
        let Returned { docket, refusal } = returned;
        Declined {
            refusal,
            docket: Some(docket),
        }
    }
}
