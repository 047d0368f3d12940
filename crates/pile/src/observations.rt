ghost use Rattle.std.specs.Prelude.{◌≡◌};
ghost use Rattle.pile.specs.Piles.{Pile, Lawful};

use quantity::date::Date;
use quantity::fault::Fault;
use quantity::position::Position;
use quantity::rate::Rate;
use quantity::weight::Weight;

// A rate, and the date on which it was observed.
#[derive(Clone, Copy, Debug, PartialEq, Eq)]
pub struct ObservedRate {
    pub rate: Rate,
    pub observed: Date,
}

// A pile of observations: its meaning is a number of positions, and a day, a weight and a rate for each, or a fault.
// Every question answers exactly what the meaning has, faults included, and alters nothing.
pub trait Observations {
    ghost meaning: { Self → Pile };

    // n, the number of positions from 0 to the last one that accrues.
    fn length(&self) -> u32
        ensures { result ≡ (meaning self.now).n };

    fn day(&self, i: Position) -> Result<Date, Fault>
        ensures { result ≡ (meaning self.now).day i.value };

    fn weight(&self, i: Position) -> Result<Weight, Fault>
        ensures { result ≡ (meaning self.now).weight i.value };

    fn rate(&self, i: Position) -> Result<ObservedRate, Fault>
        ensures { result ≡ (meaning self.now).rate i.value };

    ghost lawful: { (x : Self) → Lawful (meaning x) };
}
