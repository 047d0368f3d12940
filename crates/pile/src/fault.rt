// Faults, and how they pass up through layers.
ghost use Rattle.std.specs.Prelude.{◌≡◌, if◌then◌else◌, Ok, Err};
ghost use Rattle.schedule.specs.Positions.{within};
ghost use Rattle.pile.specs.Faults.{lifted, outside, raised};

use quantity::fault::{Cause, Fault};
use quantity::position::Position;
use schedule::position::is_within;

// The fault of a position that the pile asked does not have.
pub fn outside(at: Position) -> Fault
    ensures { result ≡ outside at.value }
{
    Fault {
        cause: Cause::Outside,
        position: at,
        above: 0,
    }
}

// Whether a position is one of n, or the fault that it is not.
pub(crate) fn inside(i: Position, n: u32) -> Result<(), Fault>
    ensures { result ≡ (if within n i.value then Ok tt else Err (outside i.value)) }
{
    if is_within(i, n) {
        Ok(())
    } else {
        Err(outside(i))
    }
}

// The same fault, seen from one layer above.
pub fn raised(fault: Fault) -> Fault
    ensures { result ≡ raised fault }
{
    Fault {
        above: fault.above.saturating_add(1),
        ..fault
    }
}

// An answer from below, as a layer passes it up.
pub fn lift<T>(answer: Result<T, Fault>) -> Result<T, Fault>
    ensures { result ≡ lifted answer }
{
    answer.map_err(raised)
}
