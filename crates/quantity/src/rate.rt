ghost use Rattle.std.specs.Prelude.{◌≡◌, ◌⊎◌, pos, negsuc, ◌≤ℤ◌, ◌<ℤ◌, MatchResult};
ghost use Rattle.quantity.specs.Refusals.{told, plain};

use crate::refusal::Refusal;

// A rate in ticks of 10^-6, from -250,000 to 250,000.
// A type apart from the other bounded numbers, so that contracts name the unit.
#[derive(Clone, Copy, Debug, PartialEq, Eq, PartialOrd, Ord)]
pub struct Rate {
    ticks: i32,
    ghost least: { negsuc 249999 ≤ℤ ticks },
    ghost most: { ticks ≤ℤ pos 250000 },
}

impl Rate {
    // The rate of so many ticks, or refusal 2 outside the range.
    pub fn new(ticks: i32) -> Result<Rate, Refusal>
        ensures { MatchResult result (λ d. d.ticks ≡ ticks) (λ e. ((ticks <ℤ negsuc 249999) ⊎ (pos 250000 <ℤ ticks)) × (told e ≡ plain 2)) }
    {
        if !(-250_000..=250_000).contains(&ticks) {
            return Err(Refusal::OutOfRange);
        }
        Ok(Rate { ticks })
    }

    pub fn zero() -> Rate
        ensures { result.ticks ≡ pos 0 }
    {
        Rate { ticks: 0 }
    }

    pub fn ticks(self) -> i32
        ensures value { result ≡ self.ticks }
        ensures least { negsuc 249999 ≤ℤ result }
        ensures most { result ≤ℤ pos 250000 }
    {
        self.ticks
    }
}
