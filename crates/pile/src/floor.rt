ghost use Rattle.std.specs.Prelude.{◌≡◌, ◌⊎◌, refl, pos, negsuc, ◌<ℤ◌, MatchResult};
ghost use Rattle.quantity.specs.Refusals.{told, plain};
ghost use Rattle.pile.specs.Layers.{floored, at_least};

use crate::layer::Layer;
use crate::observations::{Observations, ObservedRate};
use quantity::fault::Fault;
use quantity::position::Position;
use quantity::rate::Rate;
use quantity::refusal::Refusal;

// The rate is at least `floor`.
#[derive(Drop)]
pub struct Floor<P> {
    below: P,
    floor: Rate,
}

// A floor of so many ticks, or refusal 10 outside a rate's limits.
pub fn floor_of(ticks: i32) -> Result<Rate, Refusal>
    ensures { MatchResult result (λ d. d.ticks ≡ ticks) (λ e. ((ticks <ℤ negsuc 249999) ⊎ (pos 250000 <ℤ ticks)) × (told e ≡ plain 10)) }
{
    Rate::new(ticks).map_err(|_| Refusal::OutOfLimits)
}

impl<P> Floor<P> {
    pub fn new(below: P, floor: Rate) -> Floor<P>
        ensures below { result.below ≡ below }
        ensures floor { result.floor ≡ floor }
    {
        Floor { below, floor }
    }
}

impl<P: Observations> Layer for Floor<P> {
    type Below = P;

    ghost below = { λ s. s.below };

    ghost layered = { λ s. floored s.floor };

    ghost weight_position = { λ _ i. i };

    ghost rate_below = { λ s m i. at_least s.floor (m.rate i) };

    ghost made = { λ _ _. refl };

    fn below(&self) -> &P {
        &self.below
    }

    fn weight_position(&self, i: Position) -> Position {
        i
    }

    fn rate_below(&self, i: Position) -> Result<ObservedRate, Fault> {
        self.below.rate(i).map(|o| ObservedRate {
            rate: self.floor.max(o.rate),
            ..o
        })
    }
}
