ghost use Rattle.std.specs.Prelude.{◌≡◌, ◌≤◌, unsigned_abs};
ghost use Rattle.rules.specs.Accrual.{gain};

use quantity::rate::Rate;
use quantity::weight::Weight;

// A rate, and the days that it counts for.
#[derive(Clone, Copy, Debug, PartialEq, Eq)]
pub struct Observation {
    pub rate: Rate,
    pub weight: Weight,
}

impl Observation {
    // Rate times weight, at most 250,000 times 15 either way.
    pub(crate) fn gain(self) -> i64
        ensures value { result ≡ gain self }
        ensures small { unsigned_abs result ≤ 3750000 }
    {
        i64::from(self.rate.ticks()) * i64::from(self.weight.days().number())
    }
}
