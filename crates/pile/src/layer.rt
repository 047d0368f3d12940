// What all layers share: each is a pile made of the pile below. The layers stay types apart, each with a maker of its own, so that a
// contract says what each holds: a lag, a shift, the days of a lockout, a floor. The trait stays in this crate, since two of its questions are
// put only at positions that the pile has.
ghost use Rattle.std.specs.Prelude.{◌≡◌, true, ℤ};
ghost use Rattle.schedule.specs.Positions.{within};
ghost use Rattle.pile.specs.Layers.{Rates, over};
ghost use Rattle.pile.specs.Piles.{Pile};
ghost use Rattle.pile.specs.Kept.{layered_lawful};

use crate::fault::{inside, lift};
use crate::observations::{Observations, ObservedRate};
use quantity::date::Date;
use quantity::fault::Fault;
use quantity::position::Position;
use quantity::weight::Weight;

// A layer passes the number of positions and the days on unchanged, and says where below it finds weights and rates.
pub trait Layer {
    type Below: Observations;

    // the pile below
    ghost below: { Self → Self.Below };

    // what the layer makes of a pile
    ghost layered: { Self → Pile → Pile };

    // the position below whose weight a position has: without a default, whose proof would have to hold for every layer
    ghost weight_position: { Self → ℤ → ℤ };

    // the rate that the layer finds below for a position
    ghost rate_below: { Self → Pile → Rates };

    fn below(&self) -> &Self::Below
        ensures { result.now ≡ below self.now };

    fn weight_position(&self, i: Position) -> Position
        requires { within (Self.Below.meaning (below self.now)).n i.value ≡ true }
        ensures { result.value ≡ weight_position self.now i.value };

    fn rate_below(&self, i: Position) -> Result<ObservedRate, Fault>
        requires { within (Self.Below.meaning (below self.now)).n i.value ≡ true }
        ensures { result ≡ rate_below self.now (Self.Below.meaning (below self.now)) i.value };

    // so every layer is made from one definition
    ghost made: { (x : Self) (m : Pile) → layered x m ≡ over (weight_position x) (rate_below x m) m };
}

impl<L: Layer> Observations for L {
    ghost meaning = { λ x. L.layered x (L.Below.meaning (L.below x)) };

    ghost lawful = { λ x. layered_lawful _ _ _ _ (L.made x (L.Below.meaning (L.below x))) (L.Below.lawful (L.below x)) };

    fn length(&self) -> u32 {
        self.below().length()
    }

    fn day(&self, i: Position) -> Result<Date, Fault> {
        self.below().day(i)
    }

    fn weight(&self, i: Position) -> Result<Weight, Fault> {
        inside(i, self.length())?;
        lift(self.below().weight(self.weight_position(i)))
    }

    fn rate(&self, i: Position) -> Result<ObservedRate, Fault> {
        inside(i, self.length())?;
        lift(self.rate_below(i))
    }
}
