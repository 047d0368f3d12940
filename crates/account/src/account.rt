ghost use Rattle.std.specs.Prelude.{◌≡◌, true, length};
ghost use Rattle.coupon.specs.Coupons.{borne};
ghost use Rattle.account.specs.Phases.{fits};

use crate::phase::Phase;
use coupon::lines::Lines;

pub mod calls;
pub mod entry;
pub mod opening;
pub mod reconciliation;

// A coupon account. An open one has a period of at least one day and a line for at most each of its days, and a closed or paid one
// for each of them.
#[derive(Drop)]
pub struct Account {
    phase: Phase,
    lines: Lines,
    ghost fitting: { fits phase lines.terms.n (length (borne lines)) ≡ true },
}
