ghost use Rattle.std.specs.Prelude.{◌≡◌, ◌+◌, ◌<◌, ◌≤◌, MatchResult};
ghost use Rattle.quantity.specs.Refusals.{told, plain};

use crate::days::DayCount;
use crate::refusal::Refusal;
use crate::weight::Weight;

// The sum of the weights of a coupon's observations, at most 400.
// A type apart from the other bounded numbers, so that contracts name the unit.
#[derive(Clone, Copy, Debug, PartialEq, Eq, PartialOrd, Ord)]
pub struct TotalWeight {
    days: u32,
    ghost most: { days ≤ 400 },
}

impl TotalWeight {
    // The sum of no weights.
    pub fn none() -> TotalWeight
        ensures { result.days ≡ 0 }
    {
        TotalWeight { days: 0 }
    }

    // The sum of so many days, or refusal 17 past 400.
    pub fn new(days: DayCount) -> Result<TotalWeight, Refusal>
        ensures { MatchResult result (λ t. t.days ≡ days.days) (λ e. (400 < days.days) × (told e ≡ plain 17)) }
    {
        let days = days.number();
        if days > 400 {
            return Err(Refusal::TooHeavy);
        }
        Ok(TotalWeight { days })
    }

    // One weight more, or refusal 17 where that would pass 400.
    pub fn plus(self, weight: Weight) -> Result<TotalWeight, Refusal>
        ensures { MatchResult result (λ t. t.days ≡ self.days + weight.days) (λ e. (400 < self.days + weight.days) × (told e ≡ plain 17)) }
    {
        Self::new(DayCount::new(self.days + weight.days().number()))
    }

    pub fn days(self) -> DayCount
        ensures value { result.days ≡ self.days }
        ensures most { result.days ≤ 400 }
    {
        DayCount::new(self.days)
    }
}
