// The TARGET calendar.
ghost use Rattle.std.specs.Prelude.{◌≡◌};
ghost use Rattle.calendar.specs.Target.{easter_sunday, is_holiday_of, is_target_day};
ghost use borrow.Author.Rules.{rules};

use crate::calendar::Calendar;
use crate::civil::{day_of, is_weekend};
use crate::easter::easter;
use crate::month::Month;
use crate::year::Year;
use quantity::date::Date;

// The day number of Easter Sunday.
#[tactic(auto, using(crate::proofs::Years::new_year_limit, crate::proofs::Years::easter_high), unfolding(crate::specs::Target::easter_sunday))]
fn easter_sunday(year: Year) -> u32
    ensures { result ≡ easter_sunday year.number }
{
    day_of(year, Month::March, 22) + easter(year).number()
}

// Whether a day is one of a year's holidays, in the order of the ECB's list.
#[tactic(auto, using(crate::proofs::Years::new_year_limit, crate::proofs::Years::easter_low, crate::proofs::Years::easter_high))]
fn is_holiday_of(year: Year, day: u32) -> bool
    ensures { result ≡ is_holiday_of year.number day }
{
    let sunday = easter_sunday(year);
    day == day_of(year, Month::January, 1)
        || day == sunday - 2
        || day == sunday + 1
        || day == day_of(year, Month::May, 1)
        || day == day_of(year, Month::December, 25)
        || day == day_of(year, Month::December, 26)
}

#[derive(Clone, Copy, Debug, PartialEq, Eq)]
pub struct Target;

impl Calendar for Target {
    ghost good = { λ _ d. is_target_day d };

    ghost within = { unfold is_target_day in λ c d h. Prim.search rules };

    fn is_good(&self, date: Date) -> bool {
        !is_weekend(date) && !is_holiday_of(Year::from(date), date.number())
    }
}
