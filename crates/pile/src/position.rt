ghost use Rattle.std.specs.Prelude.{◌≡◌, ◌-◌, ◌≤◌, pos, negsuc, ◌-ℤ◌, ◌≤ℤ◌};
ghost use Rattle.std.specs.Int.{int_min};

use quantity::position::{Offset, Position};

// The position so many good days before one that a pile has.
pub(crate) fn before(i: Position, by: Offset) -> Position
    requires { negsuc 63 ≤ℤ i.value }
    ensures { result.value ≡ i.value -ℤ pos by.count }
{
    i.earlier(by).unwrap()
}

// The position whose rate stands for that of i: no later than the last one before a lockout of so many days.
pub(crate) fn unlocked(i: Position, n: u32, days: Offset) -> Position
    requires { n ≤ 400 }
    ensures { result.value ≡ int_min i.value (pos (n - 1 - days.count)) }
{
    let last = n.saturating_sub(1).saturating_sub(u32::from(days.count()));
    Position::new(i.value().min(last as i32))
}
