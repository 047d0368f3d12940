ghost use Rattle.std.specs.Prelude.{◌≡◌, ◌⊎◌, pos, negsuc, ◌≤ℤ◌, ◌<ℤ◌, MatchResult};
ghost use Rattle.quantity.specs.Refusals.{told, plain};

use crate::refusal::Refusal;

// A margin over the reported rate, in places of 10^-7, from -1,000,000 to 1,000,000.
// A type apart from the other bounded numbers, so that contracts name the unit.
#[derive(Clone, Copy, Debug, PartialEq, Eq, PartialOrd, Ord)]
pub struct Margin {
    places: i32,
    ghost least: { negsuc 999999 ≤ℤ places },
    ghost most: { places ≤ℤ pos 1000000 },
}

impl Margin {
    // The margin of so many places, or refusal 10 outside the range.
    pub fn new(places: i32) -> Result<Margin, Refusal>
        ensures { MatchResult result (λ m. m.places ≡ places) (λ e. ((places <ℤ negsuc 999999) ⊎ (pos 1000000 <ℤ places)) × (told e ≡ plain 10)) }
    {
        if !(-1_000_000..=1_000_000).contains(&places) {
            return Err(Refusal::OutOfLimits);
        }
        Ok(Margin { places })
    }

    pub fn places(self) -> i32
        ensures value { result ≡ self.places }
        ensures least { negsuc 999999 ≤ℤ result }
        ensures most { result ≤ℤ pos 1000000 }
    {
        self.places
    }
}
