// Easter Sunday of each year.
ghost use Rattle.std.specs.Prelude.{◌≡◌, true};
ghost use Rattle.calendar.specs.Easter.{computus, every, is_computus};

use crate::year::{FIRST_YEAR, Year};
use quantity::days::DayCount;

// The Easter Sundays of 2000 to 2199, in days after 22 March: a constant table, so that no memory is taken and a year is looked up.
// One test compares it with the computus.
const EASTERS: [u8; 200] = [
    32, 24, 9, 29, 20, 5, 25, 17, 1, 21, 13, 33, 17, 9, 29, 14, 5, 25, 10, 30, 21, 13, 26, 18, 9,
    29, 14, 6, 25, 10, 30, 22, 6, 26, 18, 3, 22, 14, 34, 19, 10, 30, 15, 7, 26, 18, 3, 23, 14, 27,
    19, 11, 30, 15, 7, 27, 11, 31, 23, 8, 27, 19, 4, 24, 15, 7, 20, 12, 31, 23, 8, 28, 19, 4, 24,
    16, 28, 20, 12, 32, 16, 8, 28, 13, 4, 24, 9, 29, 20, 12, 25, 17, 8, 21, 13, 33, 24, 9, 29, 21,
    6, 26, 18, 3, 22, 14, 27, 19, 10, 30, 15, 7, 26, 11, 31, 23, 7, 27, 19, 4, 23, 15, 7, 20, 11,
    31, 23, 8, 27, 19, 4, 24, 15, 28, 20, 12, 31, 16, 8, 28, 12, 4, 24, 9, 28, 20, 12, 25, 16, 8,
    21, 13, 32, 24, 9, 29, 20, 5, 25, 17, 1, 21, 13, 33, 17, 9, 29, 14, 5, 25, 10, 30, 21, 13, 26,
    18, 9, 29, 14, 6, 25, 10, 30, 22, 6, 26, 18, 3, 22, 14, 34, 19, 10, 30, 15, 7, 26, 18, 3, 23,
];

// The table, of which each entry passes the test of its year.
fn table() -> &'static [u8; 200]
    ensures { every is_computus 0 result.now ≡ true }
{
    &EASTERS
}

// Easter Sunday of a year, in days after 22 March.
#[tactic(auto, using(crate::proofs::Easters::entry))]
pub fn easter(year: Year) -> DayCount
    ensures { result.days ≡ computus year.number }
{
    DayCount::new(table()[(year.number() - FIRST_YEAR) as usize] as u32)
}
