ghost use Rattle.std.specs.Prelude.{◌≡◌};
ghost use Rattle.quantity.specs.Refusals.{faulted};

use crate::date::Date;
use crate::position::Position;

#[derive(Clone, Copy, Debug, PartialEq, Eq)]
pub enum Cause {
    // the position lies outside the pile
    Outside,
    // the source has no fixing on this date
    NoFixing(Date),
}

// Why a pile of observations has no answer: the cause, the position put to the layer where it arose,
// and the number of layers above that layer, 255 if more.
#[derive(Clone, Copy, Debug, PartialEq, Eq)]
pub struct Fault {
    pub cause: Cause,
    pub position: Position,
    pub above: u8,
}

impl Fault {
    // The number under which it is reported; within the engine a fault is its cause.
    pub fn number(self) -> u8
        ensures { result ≡ (faulted self.cause self.position.value self.above).number }
    {
        match self.cause {
            Cause::Outside => 11,
            Cause::NoFixing(_) => 12,
        }
    }

    pub(crate) fn reason(self) -> &'static str {
        match self.cause {
            Cause::Outside => "the position is outside the pile",
            Cause::NoFixing(_) => "there is no fixing on the observed date",
        }
    }
}
