// The observations so far, and what a rule gives over them.
ghost use Rattle.factor.specs.Observed.{Observes};
ghost use Rattle.factor.specs.declared.observe.Failure.TheVariants.{Refused, NoMemory};
ghost use Rattle.std.specs.Prelude.{◌≡◌};

use quantity::refusal::Refusal;
use quantity::year::YearBase;
use rules::observation::Observation;
use rules::rule::Rule;
use rules::run::{Accrual, accrued};
use std::alloc::AllocFailed;
use std::error::Error;
use std::fmt;

// Why an observation is not kept: it is refused, or there is no memory for it.
#[derive(Clone, Copy, Debug, PartialEq, Eq)]
pub(crate) enum Failure {
    Refused(Refusal),
    NoMemory,
}

impl From<Refusal> for Failure {
    ghost from_gives = { λ refusal failure. failure ≡ Refused refusal };

    fn from(refusal: Refusal) -> Failure {
        Failure::Refused(refusal)
    }
}

impl<T: Drop> From<AllocFailed<T>> for Failure {
    ghost from_gives = { λ _ failure. failure ≡ NoMemory };

    fn from(_failed: AllocFailed<T>) -> Failure {
        Failure::NoMemory
    }
}

impl fmt::Display for Failure {
    fn fmt<W: fmt::Write>(&self, f: &mut fmt::Formatter<W>) -> fmt::Result {
        match self {
            Failure::Refused(refusal) => write!(f, "{refusal}"),
            Failure::NoMemory => write!(f, "out of memory"),
        }
    }
}

impl Error for Failure {}

// One observation more: what the rule gives over all of them, or a failure, after which they are as they were.
pub(crate) fn observe(
    rule: Rule,
    base: YearBase,
    seen: &mut Vec<Observation>,
    next: Observation,
) -> Result<Accrual, Failure>
    ensures { Observes rule base seen.old.items next seen.new.items result }
{
    seen.push(next)?;
    let accrual = accrued(&rule, base, seen.as_slice());
    if accrual.is_err() {
        seen.pop();
    }
    Ok(accrual?)
}
