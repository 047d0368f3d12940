ghost use Rattle.std.specs.Prelude.{◌≡◌};
ghost use Rattle.quantity.specs.Refusals.{answered};
ghost use Rattle.account.specs.Phases.{moved};

use quantity::refusal::Refusal;

#[derive(Clone, Copy, Debug, PartialEq, Eq)]
pub enum Phase {
    Empty,
    Accruing,
    Closed,
    Paid,
}

// Which call is made, without its arguments.
#[derive(Clone, Copy, Debug, PartialEq, Eq)]
pub enum Kind {
    Open,
    Accrue,
    Check,
    WindBack,
    Close,
    Withdraw,
    Pay,
    Read,
}

// The phase that a call leads to, or refusal 14. This one table of phases and kinds decides every transition.
pub fn transition(phase: Phase, kind: Kind) -> Result<Phase, Refusal>
    ensures { answered result ≡ moved phase kind }
{
    match (phase, kind) {
        (Phase::Empty | Phase::Paid, Kind::Open) => Ok(Phase::Accruing),
        (Phase::Accruing, Kind::Accrue | Kind::WindBack) => Ok(Phase::Accruing),
        (Phase::Accruing, Kind::Close) => Ok(Phase::Closed),
        (Phase::Closed, Kind::Withdraw) => Ok(Phase::Accruing),
        (Phase::Closed, Kind::Pay) => Ok(Phase::Paid),
        (Phase::Accruing | Phase::Closed | Phase::Paid, Kind::Check | Kind::Read) => Ok(phase),
        _ => Err(Refusal::WrongPhase),
    }
}
