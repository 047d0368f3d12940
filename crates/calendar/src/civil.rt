// Dates by year, month and day.
ghost use Rattle.std.specs.Prelude.{◌≡◌, ◌+◌, ◌≤◌};
ghost use Rattle.calendar.specs.Civil.{is_weekend, new_year, day_of};

use crate::month::Month;
use crate::year::{FIRST_YEAR, Year};
use quantity::date::Date;

pub(crate) fn is_weekend(date: Date) -> bool
    ensures { result ≡ is_weekend date.number }
{
    date.number() % 7 < 2
}

// The day number of 1 January, up to that of 2200.
#[tactic(auto, unfolding(crate::specs::Civil::new_year))]
pub(crate) fn new_year(year: u16) -> u32
    requires { (2000 ≤ year) × (year ≤ 2200) }
    ensures { result ≡ new_year year }
{
    let k = (year - FIRST_YEAR) as u32;
    365 * k + ((k + 3) / 4 - k.saturating_sub(1) / 100)
}

// The day number of a day of a month.
#[tactic(auto, using(crate::proofs::Years::new_year_limit), unfolding(crate::specs::Civil::day_of))]
pub(crate) fn day_of(year: Year, month: Month, day: u32) -> u32
    requires { (1 ≤ day) × (day ≤ 31) }
    ensures { result ≡ day_of year.number month day }
{
    let before = month.days_before();
    let leap_day = if year.is_leap() && before > 31 { 1 } else { 0 };
    new_year(year.number()) + before + leap_day + day - 1
}
