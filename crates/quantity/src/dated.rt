// Records that carry a date, and the search for one.
ghost use Rattle.std.specs.Prelude.{◌≡◌, ℕ, map};
ghost use Rattle.quantity.specs.Dated.{FirstAt};

use crate::date::Date;

pub trait Dated {
    // The number of the date that a record carries.
    ghost dated: { Self → ℕ };

    fn date(&self) -> Date
        ensures { result.number ≡ dated self.now };
}

// The place of the first record of a date, or none.
pub fn find<R: Dated>(records: &[R], date: Date) -> Option<usize>
    ensures { FirstAt (map R.Dated.dated records.now) date.number result }
{
    records.iter().position(|record| record.date() == date)
}

impl Dated for Date {
    ghost dated = { λ d. d.number };

    fn date(&self) -> Date {
        *self
    }
}
