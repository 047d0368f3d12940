// A rule over a whole run of observations.
ghost use Rattle.std.specs.Prelude.{◌≡◌, ◌<◌, MatchResult};
ghost use Rattle.quantity.specs.Refusals.{told, plain};
ghost use Rattle.rules.specs.Accrual.{weight_of};
ghost use Rattle.rules.specs.Rate.{Accrues};

use crate::bounds::{Bounds, ModerateBounds};
use crate::observation::Observation;
use crate::report::{Report, reported};
use crate::rule::AccrualRule;
use quantity::refusal::Refusal;
use quantity::total::TotalWeight;
use quantity::year::YearBase;

// What a rule gives over some observations: their number and weight, the bounds of the factor,
// and the rate, which wants at least one.
#[derive(Clone, Copy, Debug, PartialEq, Eq)]
pub struct Accrual {
    pub count: u32,
    pub weight: TotalWeight,
    pub bounds: Bounds,
    pub report: Option<Report>,
}

// The rule over all observations, the oldest first, or refusal 17 where their weights sum to over 400.
pub fn accrued<R: AccrualRule>(
    rule: &R,
    base: YearBase,
    seen: &[Observation],
) -> Result<Accrual, Refusal>
    ensures { MatchResult result (λ a. Accrues (R.AccrualRule.grown rule.now base) (R.AccrualRule.widened rule.now base) base seen.now a) (λ e. (400 < weight_of seen.now) × (told e ≡ plain 17)) }
{
    let mut weight = TotalWeight::none();
    let mut bounds = ModerateBounds::one();
    for (count, o) in seen.iter().enumerate() {
        weight = weight.plus(o.weight)?;
        bounds = ModerateBounds::new(rule.step(base, count as u32, bounds, *o)).unwrap();
    }
    Ok(Accrual {
        count: seen.len() as u32,
        weight,
        bounds: bounds.bounds(),
        report: reported(base, weight, bounds),
    })
}
