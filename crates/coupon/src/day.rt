ghost use Rattle.std.specs.Prelude.{◌≡◌, ◌≤◌, pos};
ghost use Rattle.coupon.specs.Days.{day_at};

use pile::observations::{Observations, ObservedRate};
use quantity::date::Date;
use quantity::fault::Fault;
use quantity::position::Position;
use quantity::rate::Rate;
use quantity::weight::Weight;

// What a line takes from a pile: its day, the day of the next position, the weight, and the rate with its observed date.
#[derive(Clone, Copy, Debug, PartialEq, Eq)]
pub struct Day {
    pub date: Date,
    pub next: Date,
    pub weight: Weight,
    pub rate: Rate,
    pub observed: Date,
}

// The position of the line after `count` others. A `From` would have to serve counts that 32 signed bits do not hold.
pub(crate) fn position(count: u32) -> Position
    requires { count ≤ 2147483647 }
    ensures { result.value ≡ pos count }
{
    Position::new(count as i32)
}

// The day that a pile gives for the line after `count` others, or its fault: the rate's before the weight's.
pub(crate) fn observe<P: Observations>(pile: &P, count: u32) -> Result<Day, Fault>
    requires { count ≤ 400 }
    ensures { result ≡ day_at (P.meaning pile.now) count }
{
    let ObservedRate { rate, observed } = pile.rate(position(count))?;
    let weight = pile.weight(position(count))?;
    let date = pile.day(position(count))?;
    let next = pile.day(position(count + 1))?;
    Ok(Day {
        date,
        next,
        weight,
        rate,
        observed,
    })
}
