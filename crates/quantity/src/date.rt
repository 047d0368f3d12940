ghost use Rattle.std.specs.Prelude.{◌≡◌, ◌+◌, ◌<◌, ◌≤◌, MatchOption};

use crate::days::DayCount;

pub mod made;

// A Gregorian day number: 0 is 2000-01-01, a Saturday, and 73,048 is 2199-12-31. A type apart from the other bounded numbers, so
// that no count is added to it as it is.
#[derive(Clone, Copy, Debug, PartialEq, Eq, PartialOrd, Ord)]
pub struct Date {
    number: u32,
    ghost known: { number ≤ 73048 },
}

impl Date {
    // The number of the last date.
    pub const LAST: u32 = 73_048;

    // 2000-01-01
    pub fn first() -> Date
        ensures { result.number ≡ 0 }
    {
        Date { number: 0 }
    }

    pub fn number(self) -> u32
        ensures value { result ≡ self.number }
        ensures known { result ≤ 73048 }
    {
        self.number
    }

    // The days from an earlier date to this one, or none where that date is later.
    pub fn since(self, earlier: Date) -> Option<DayCount>
        ensures { MatchOption result (self.number < earlier.number) (λ d. earlier.number + d.days ≡ self.number) }
    {
        let days = self.number.checked_sub(earlier.number)?;
        Some(DayCount::new(days))
    }

    // The date so many days later, or none past the last one.
    pub fn plus(self, days: DayCount) -> Option<Date>
        ensures { MatchOption result (73048 < self.number + days.days) (λ d. d.number ≡ self.number + days.days) }
    {
        let number = self.number.checked_add(days.number())?;
        Date::new(number).ok()
    }

    // The date so many days earlier, or none before the first one.
    pub fn minus(self, days: DayCount) -> Option<Date>
        ensures { MatchOption result (self.number < days.days) (λ d. d.number + days.days ≡ self.number) }
    {
        let number = self.number.checked_sub(days.number())?;
        Some(Date { number })
    }
}
