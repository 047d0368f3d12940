ghost use Rattle.std.specs.Prelude.{◌≡◌, ◌<◌, ◌≤◌, ◌⊎◌, MatchOption};

mod dated;

pub(crate) const FIRST_YEAR: u16 = 2000;

// A year that has dates, 2000 to 2199. A type apart from the other bounded numbers, so that contracts name the unit.
#[derive(Clone, Copy, Debug, PartialEq, Eq, PartialOrd, Ord)]
pub struct Year {
    number: u16,
    ghost first: { 2000 ≤ number },
    ghost last: { number ≤ 2199 },
}

impl Year {
    // The year of a number, or none without dates. A `TryFrom` would want an error type that says no more than none.
    pub fn new(number: u16) -> Option<Year>
        ensures { MatchOption result ((number < 2000) ⊎ (2199 < number)) (λ y. y.number ≡ number) }
    {
        if !(FIRST_YEAR..=2199).contains(&number) {
            return None;
        }
        Some(Year { number })
    }

    pub fn number(self) -> u16
        ensures value { result ≡ self.number }
        ensures first { 2000 ≤ result }
        ensures last { result ≤ 2199 }
    {
        self.number
    }
}
