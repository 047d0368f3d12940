// The lines of a coupon, with what is always true of them.
ghost use Rattle.std.specs.Prelude.{◌≡◌, ◌≤◌, true, vec_len, vec_capacity};
ghost use Rattle.coupon.specs.Lines.{all_modest, days_of, lines_of, weight_of};

use crate::line::Line;
use crate::terms::Terms;

pub mod accrual;
pub mod reading;

// They are just what the rules give for the days that they bear, and there is room for a line on each day of any period.
#[derive(Drop)]
pub struct Lines {
    terms: Terms,
    lines: Vec<Line>,
    ghost exact: { lines.items ≡ lines_of terms (days_of lines.items) },
    ghost light: { weight_of (days_of lines.items) ≤ 400 },
    ghost modest: { all_modest lines.items ≡ true },
    ghost within: { vec_len lines ≤ terms.n },
    ghost room: { 400 ≤ vec_capacity lines },
}
