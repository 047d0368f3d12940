ghost use Rattle.std.specs.Prelude.{◌≡◌, ◌*◌, ◌^◌};
ghost use Rattle.quantity.specs.Benchmarks.{days_in, scale};

use crate::days::DayCount;

// The days that a benchmark counts to a year, N.
#[derive(Clone, Copy, Debug, PartialEq, Eq)]
pub enum YearBase {
    Days360,
    Days365,
}

impl YearBase {
    pub fn days(self) -> DayCount
        ensures { result.days ≡ days_in self }
    {
        match self {
            YearBase::Days360 => DayCount::new(360),
            YearBase::Days365 => DayCount::new(365),
        }
    }

    // B, N times 10^6: one tick of rate over one day adds 1/B to the factor.
    pub fn scale(self) -> u32
        ensures value { result ≡ scale self }
        ensures law { scale self ≡ days_in self * 10 ^ 6 }
    {
        self.days().number() * 1_000_000
    }
}
