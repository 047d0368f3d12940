ghost use Rattle.std.specs.Prelude.{◌≡◌, ◌⊎◌, pos, negsuc, ◌≤ℤ◌, ◌<ℤ◌, MatchOption};

// A reported rate in places of 10^-7, within 3,660,000,000 of 0: no bounds of a coupon give a greater one.
// A type apart from the other bounded numbers, so that contracts name the unit.
#[derive(Clone, Copy, Debug, PartialEq, Eq, PartialOrd, Ord)]
pub struct ReportedRate {
    places: i64,
    ghost least: { negsuc 3659999999 ≤ℤ places },
    ghost most: { places ≤ℤ pos 3660000000 },
}

impl ReportedRate {
    // The reported rate of so many places, or none outside the range.
    pub fn new(places: i64) -> Option<ReportedRate>
        ensures { MatchOption result ((places <ℤ negsuc 3659999999) ⊎ (pos 3660000000 <ℤ places)) (λ d. d.places ≡ places) }
    {
        if !(-3_660_000_000..=3_660_000_000).contains(&places) {
            return None;
        }
        Some(ReportedRate { places })
    }

    pub fn places(self) -> i64
        ensures value { result ≡ self.places }
        ensures least { negsuc 3659999999 ≤ℤ result }
        ensures most { result ≤ℤ pos 3660000000 }
    {
        self.places
    }
}
