ghost use Rattle.std.specs.Prelude.{◌≡◌, refl, pos, ◌-ℤ◌};
ghost use Rattle.pile.specs.Layers.{shifted};

use crate::layer::Layer;
use crate::observations::{Observations, ObservedRate};
use crate::position::before;
use quantity::fault::Fault;
use quantity::position::{Offset, Position};

// Weight, rate and observed date come from `shift` positions earlier.
#[derive(Drop)]
pub struct Shift<P> {
    below: P,
    shift: Offset,
}

impl<P> Shift<P> {
    pub fn new(below: P, shift: Offset) -> Shift<P>
        ensures below { result.below ≡ below }
        ensures shift { result.shift ≡ shift }
    {
        Shift { below, shift }
    }
}

impl<P: Observations> Layer for Shift<P> {
    type Below = P;

    ghost below = { λ s. s.below };

    ghost layered = { λ s. shifted s.shift.count };

    ghost weight_position = { λ s i. i -ℤ pos s.shift.count };

    ghost rate_below = { λ s m i. m.rate (i -ℤ pos s.shift.count) };

    ghost made = { λ _ _. refl };

    fn below(&self) -> &P {
        &self.below
    }

    fn weight_position(&self, i: Position) -> Position {
        before(i, self.shift)
    }

    fn rate_below(&self, i: Position) -> Result<ObservedRate, Fault> {
        self.below.rate(before(i, self.shift))
    }
}
