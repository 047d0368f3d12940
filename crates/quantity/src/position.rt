ghost use Rattle.std.specs.Prelude.{◌≡◌, ◌^◌, ◌<◌, ◌≤◌, pos, ◌-ℤ◌, neg_ℤ, ◌<ℤ◌, MatchOption, MatchResult};
ghost use Rattle.quantity.specs.Refusals.{told, plain};

use crate::refusal::Refusal;

// A signed count of good days from the period's first day, which is position 0. Made and read by name: `From` would let a count of days pass for one, as a type shared with `DayCount` would.
#[derive(Clone, Copy, Debug, PartialEq, Eq, PartialOrd, Ord)]
pub struct Position {
    value: i32,
}

// A lag, a shift or a lockout: a number of positions, 0 to 20.
// A type apart from the other bounded numbers, so that contracts name the unit.
#[derive(Clone, Copy, Debug, PartialEq, Eq, PartialOrd, Ord)]
pub struct Offset {
    count: u8,
    ghost few: { count ≤ 20 },
}

impl Position {
    pub fn new(value: i32) -> Position
        ensures { result.value ≡ value }
    {
        Position { value }
    }

    pub fn value(self) -> i32
        ensures { result ≡ self.value }
    {
        self.value
    }

    // The position so many good days earlier, or none below the least that 32 bits hold.
    pub fn earlier(self, by: Offset) -> Option<Position>
        ensures { MatchOption result ((self.value -ℤ pos by.count) <ℤ neg_ℤ (pos (2 ^ 31))) (λ p. p.value ≡ self.value -ℤ pos by.count) }
    {
        let value = self.value.checked_sub(i32::from(by.count))?;
        Some(Position { value })
    }
}

impl Offset {
    // The offset of so many positions, or refusal 10 past 20.
    pub fn new(count: u8) -> Result<Offset, Refusal>
        ensures { MatchResult result (λ o. o.count ≡ count) (λ e. (20 < count) × (told e ≡ plain 10)) }
    {
        if count <= 20 {
            Ok(Offset { count })
        } else {
            Err(Refusal::OutOfLimits)
        }
    }

    pub fn count(self) -> u8
        ensures value { result ≡ self.count }
        ensures few { result ≤ 20 }
    {
        self.count
    }
}
