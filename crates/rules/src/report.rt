// The rate and the amount that a coupon reports.
ghost use Rattle.std.specs.Prelude.{◌≡◌, ◌<◌, true, pos, negsuc, ◌+ℤ◌, ◌-ℤ◌, ◌*ℤ◌, ◌≤ℤ◌, MatchOption};
ghost use Rattle.quantity.specs.Benchmarks.{days_in};
ghost use Rattle.rules.specs.Reach.{is_in_reach, unit};
ghost use Rattle.rules.specs.Rounding.{IsNearest};
ghost use Rattle.rules.specs.Rate.{rate_of, interest, amount_of, Reports, SmallAmount};

use crate::bounds::{Bounds, ModerateBounds, UNIT};
use crate::rounding::nearest_div;
use quantity::amount::CalculationAmount;
use quantity::days::DayCount;
use quantity::margin::Margin;
use quantity::reported::ReportedRate;
use quantity::total::TotalWeight;
use quantity::year::YearBase;

// A reported rate, settled where both bounds give it. The rate stands in either case, so the mark makes no `Option` of it.
#[derive(Clone, Copy, Debug, PartialEq, Eq)]
pub struct Report {
    pub rate: ReportedRate,
    pub settled: bool,
}

// The rate of one bound.
fn rate_of(base: YearBase, weight: TotalWeight, bound: i64) -> ReportedRate
    requires some { 0 < weight.days }
    requires reach { is_in_reach bound ≡ true }
    ensures { result.places ≡ rate_of base weight.days bound }
{
    let excess = i128::from(bound - UNIT) * i128::from(base.days().number());
    let places = nearest_div(excess, 100_000 * u64::from(weight.days().number()));
    ReportedRate::new(places as i64).unwrap()
}

// The rate that the lower bound gives, settled exactly where the upper bound gives the same; none over no days.
pub fn reported(base: YearBase, weight: TotalWeight, bounds: ModerateBounds) -> Option<Report>
    ensures { MatchOption result (weight.days ≡ 0) (λ p. (0 < weight.days) × Reports base weight.days bounds.bounds p) }
{
    if weight.days().number() == 0 {
        return None;
    }
    let Bounds { lo, hi } = bounds.bounds();
    let rate = rate_of(base, weight, lo);
    let upper = rate_of(base, weight, hi);
    Some(Report {
        rate,
        settled: upper == rate,
    })
}

// The interest in cents on a principal over so many days, at a reported rate and a margin.
pub fn amount(
    base: YearBase,
    principal: CalculationAmount,
    rate: ReportedRate,
    margin: Margin,
    days: DayCount,
) -> i64
    ensures value { result ≡ amount_of base principal.cents rate.places margin.places days.days }
    ensures nearest { IsNearest (interest base principal.cents rate.places margin.places days.days) result }
    ensures small { SmallAmount result }
{
    let all_in = rate.places() + i64::from(margin.places());
    let interest = i128::from(principal.cents()) * i128::from(all_in) * i128::from(days.number());
    nearest_div(interest, u64::from(base.days().number()) * 10_000_000) as i64
}
