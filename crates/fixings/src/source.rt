// Sources of rates.
ghost use Rattle.std.specs.Prelude.{◌≡◌, Option};
ghost use Rattle.quantity.specs.declared.date.Date.{Date as Day};
ghost use Rattle.quantity.specs.declared.rate.Rate.{Rate as RateOf};
ghost use Rattle.fixings.specs.Sources.{from};

use quantity::date::Date;
use quantity::rate::Rate;

// A source means a map from some dates to rates.
pub trait Source {
    ghost rates: { Self → Day → Option RateOf };

    fn rate(&self, date: Date) -> Option<Rate>
        ensures { result ≡ rates self.now date };
}

impl<F: Source> Source for &F {
    ghost rates = { λ s. F.Source.rates s.now };

    fn rate(&self, date: Date) -> Option<Rate> {
        (*self).rate(date)
    }
}

// One rate from a first date on.
#[derive(Clone, Copy, Debug, PartialEq, Eq)]
pub struct Projection {
    first: Date,
    level: Rate,
}

impl Projection {
    pub fn new(first: Date, level: Rate) -> Projection
        ensures first { result.first ≡ first }
        ensures level { result.level ≡ level }
    {
        Projection { first, level }
    }
}

impl Source for Projection {
    ghost rates = { λ p d. from p.first.number p.level d.number };

    fn rate(&self, date: Date) -> Option<Rate> {
        (self.first <= date).then_some(self.level)
    }
}
