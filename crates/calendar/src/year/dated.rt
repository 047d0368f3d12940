// The years by the day numbers of their dates.
ghost use Rattle.std.specs.Prelude.{◌≡◌, ◌+◌, if◌then◌else◌};
ghost use Rattle.calendar.specs.Civil.{InYear, is_leap, new_year};

use crate::civil::new_year;
use crate::year::{FIRST_YEAR, Year};
use quantity::date::Date;
use quantity::days::DayCount;

// The year of a date.
impl From<Date> for Year {
    ghost from_gives = { λ date year. InYear year.number date.number };

    #[tactic(auto, using(crate::proofs::Years::in_guess, crate::proofs::Years::before_guess))]
    fn from(date: Date) -> Year {
        let day = date.number();
        let guess = FIRST_YEAR + (day / 365) as u16;
        let number = if new_year(guess) <= day {
            guess
        } else {
            guess - 1
        };
        Year { number }
    }
}

impl Year {
    #[tactic(auto, unfolding(crate::specs::Civil::is_leap))]
    pub(crate) fn is_leap(self) -> bool
        ensures { result ≡ is_leap self.number }
    {
        self.number % 4 == 0 && self.number % 100 != 0 || self.number % 400 == 0
    }

    // The days of the year, from one 1 January to the next.
    #[tactic(auto, using(crate::proofs::Leap::year_follows))]
    pub fn days(self) -> DayCount
        ensures leap { result.days ≡ 365 + (if is_leap self.number then 1 else 0) }
        ensures next { new_year (self.number + 1) ≡ new_year self.number + result.days }
    {
        DayCount::new(if self.is_leap() { 366 } else { 365 })
    }
}
