ghost use Rattle.std.specs.Prelude.{◌≡◌, refl, pos, ◌-ℤ◌};
ghost use Rattle.pile.specs.Layers.{lagged};

use crate::layer::Layer;
use crate::observations::{Observations, ObservedRate};
use crate::position::before;
use quantity::fault::Fault;
use quantity::position::{Offset, Position};

// Rate and observed date come from `lag` positions earlier.
#[derive(Drop)]
pub struct Lag<P> {
    below: P,
    lag: Offset,
}

impl<P> Lag<P> {
    pub fn new(below: P, lag: Offset) -> Lag<P>
        ensures below { result.below ≡ below }
        ensures lag { result.lag ≡ lag }
    {
        Lag { below, lag }
    }
}

impl<P: Observations> Layer for Lag<P> {
    type Below = P;

    ghost below = { λ s. s.below };

    ghost layered = { λ s. lagged s.lag.count };

    ghost weight_position = { λ _ i. i };

    ghost rate_below = { λ s m i. m.rate (i -ℤ pos s.lag.count) };

    ghost made = { λ _ _. refl };

    fn below(&self) -> &P {
        &self.below
    }

    fn weight_position(&self, i: Position) -> Position {
        i
    }

    fn rate_below(&self, i: Position) -> Result<ObservedRate, Fault> {
        self.below.rate(before(i, self.lag))
    }
}
