ghost use Rattle.std.specs.Prelude.{◌≡◌};
ghost use Rattle.schedule.specs.Positions.{within};

use quantity::position::Position;

// Whether a position is one of -64 to n - 1.
pub fn is_within(position: Position, n: u32) -> bool
    ensures { result ≡ within n position.value }
{
    (-64..i64::from(n)).contains(&i64::from(position.value()))
}
