ghost use Rattle.std.specs.Prelude.{◌≡◌, ◌-◌, refl, pos};
ghost use Rattle.std.specs.Int.{int_min};
ghost use Rattle.pile.specs.Layers.{locked};

use crate::layer::Layer;
use crate::observations::{Observations, ObservedRate};
use crate::position::unlocked;
use quantity::fault::Fault;
use quantity::position::{Offset, Position};

// Rate and observed date come from no later than `days` positions before the last one.
#[derive(Drop)]
pub struct Lockout<P> {
    below: P,
    days: Offset,
}

impl<P> Lockout<P> {
    pub fn new(below: P, days: Offset) -> Lockout<P>
        ensures below { result.below ≡ below }
        ensures days { result.days ≡ days }
    {
        Lockout { below, days }
    }
}

impl<P: Observations> Layer for Lockout<P> {
    type Below = P;

    ghost below = { λ s. s.below };

    ghost layered = { λ s. locked s.days.count };

    ghost weight_position = { λ _ i. i };

    ghost rate_below = { λ s m i. m.rate (int_min i (pos (m.n - 1 - s.days.count))) };

    ghost made = { λ _ _. refl };

    fn below(&self) -> &P {
        &self.below
    }

    fn weight_position(&self, i: Position) -> Position {
        i
    }

    fn rate_below(&self, i: Position) -> Result<ObservedRate, Fault> {
        self.below.rate(unlocked(i, self.below.length(), self.days))
    }
}
