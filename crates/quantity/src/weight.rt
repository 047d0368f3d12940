ghost use Rattle.std.specs.Prelude.{◌≡◌, ◌<◌, ◌≤◌, ◌⊎◌, MatchResult};
ghost use Rattle.quantity.specs.Refusals.{told, plain};

use crate::days::DayCount;
use crate::refusal::Refusal;

// The days that one observation counts for, 1 to 15.
// A type apart from the other bounded numbers, so that contracts name the unit.
#[derive(Clone, Copy, Debug, PartialEq, Eq, PartialOrd, Ord)]
pub struct Weight {
    days: u32,
    ghost least: { 1 ≤ days },
    ghost most: { days ≤ 15 },
}

impl Weight {
    // The weight of so many days, or refusal 10 outside the range.
    pub fn new(days: DayCount) -> Result<Weight, Refusal>
        ensures { MatchResult result (λ w. w.days ≡ days.days) (λ e. ((days.days < 1) ⊎ (15 < days.days)) × (told e ≡ plain 10)) }
    {
        let days = days.number();
        if !(1..=15).contains(&days) {
            return Err(Refusal::OutOfLimits);
        }
        Ok(Weight { days })
    }

    pub fn days(self) -> DayCount
        ensures value { result.days ≡ self.days }
        ensures least { 1 ≤ result.days }
        ensures most { result.days ≤ 15 }
    {
        DayCount::new(self.days)
    }
}
