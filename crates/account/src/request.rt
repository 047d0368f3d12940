ghost use Rattle.std.specs.Prelude.{◌≡◌};
ghost use Rattle.account.specs.declared.request.TurnedDown.TheVariants.{GivenBack, Refused};

use crate::due::{Due, Receipt, Returned};
use crate::phase::Phase;
use coupon::line::Line;
use quantity::position::Position;
use quantity::refusal::Refusal;
use rules::bounds::Bounds;

// How an account stands: its phase, the number of its lines and of its period's days, and the bounds of the factor.
#[derive(Clone, Copy, Debug, PartialEq, Eq)]
pub struct Status {
    pub phase: Phase,
    pub k: u32,
    pub n: u32,
    pub bounds: Bounds,
}

// A call with its arguments. Accrue and check are over a pile.
pub enum Request<'a, P> {
    Accrue(&'a P),
    Check(&'a P),
    WindBack(Position),
    Close,
    Withdraw(Due),
    Pay(Due),
    Read(Position),
    Status,
}

// What a call that goes through answers.
pub enum Reply {
    Accrued,
    Agrees(Position),
    WoundBack,
    NowDue(Due),
    Withdrawn,
    Receipted(Receipt),
    Holds(Line),
    Stands(Status),
}

// Why a call is turned down, and the due that it offered.
pub enum TurnedDown {
    Refused(Refusal),
    GivenBack(Returned),
}

impl From<Refusal> for TurnedDown {
    ghost from_gives = { λ refusal turned_down. turned_down ≡ Refused refusal };

    fn from(refusal: Refusal) -> TurnedDown {
        TurnedDown::Refused(refusal)
    }
}

impl From<Returned> for TurnedDown {
    ghost from_gives = { λ returned turned_down. turned_down ≡ GivenBack returned };

    fn from(returned: Returned) -> TurnedDown {
        TurnedDown::GivenBack(returned)
    }
}
