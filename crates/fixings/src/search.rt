// Searches among fixings whose dates rise.
ghost use Rattle.std.specs.Prelude.{◌≡◌, ℕ, ◌<◌, ◌≤◌, true, length, slice_index};
ghost use Rattle.quantity.specs.Dated.{FirstAt};
ghost use Rattle.quantity.specs.Orders.{rises};
ghost use Rattle.fixings.specs.Fixings.{dates_of};

use crate::fixing::Fixing;
use quantity::date::Date;

// The place of the fixing of a date, or none: dates rise, so the library searches by halves.
pub(crate) fn place(fixings: &[Fixing], date: Date) -> Option<usize>
    requires { rises (dates_of fixings.now) ≡ true }
    ensures { FirstAt (dates_of fixings.now) date.number result }
{
    fixings
        .binary_search_by_key(&date, |fixing| fixing.date)
        .ok()
}

// The number of fixings dated before a date.
pub(crate) fn rank(fixings: &[Fixing], date: Date) -> usize
    requires { rises (dates_of fixings.now) ≡ true }
    ensures within { result ≤ length fixings.now }
    ensures below { (k : ℕ) → k < result → slice_index (dates_of fixings.now) k < date.number }
    ensures above { result < length fixings.now → date.number ≤ slice_index (dates_of fixings.now) result }
{
    fixings.partition_point(|fixing| fixing.date < date)
}
