ghost use Rattle.std.specs.Prelude.{◌≡◌, ◌<◌, ◌≤◌, ◌⊎◌, MatchResult};
ghost use Rattle.quantity.specs.Refusals.{told, plain};

use crate::refusal::Refusal;

// The amount in cents that interest is calculated on, from 1 to 1,000,000,000.
// A type apart from the other bounded numbers, so that contracts name the unit.
#[derive(Clone, Copy, Debug, PartialEq, Eq, PartialOrd, Ord)]
pub struct CalculationAmount {
    cents: u32,
    ghost least: { 1 ≤ cents },
    ghost most: { cents ≤ 1000000000 },
}

impl CalculationAmount {
    // The amount of so many cents, or refusal 10 outside the range.
    pub fn new(cents: u32) -> Result<CalculationAmount, Refusal>
        ensures { MatchResult result (λ a. a.cents ≡ cents) (λ e. ((cents < 1) ⊎ (1000000000 < cents)) × (told e ≡ plain 10)) }
    {
        if !(1..=1_000_000_000).contains(&cents) {
            return Err(Refusal::OutOfLimits);
        }
        Ok(CalculationAmount { cents })
    }

    pub fn cents(self) -> u32
        ensures value { result ≡ self.cents }
        ensures least { 1 ≤ result }
        ensures most { result ≤ 1000000000 }
    {
        self.cents
    }
}
