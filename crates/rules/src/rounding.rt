// Quotients rounded to whole numbers.
ghost use Rattle.std.specs.Prelude.{◌≡◌, ◌^◌, ◌<◌, ◌≤◌, negsuc, ◌≤ℤ◌, unsigned_abs};
ghost use Rattle.quantity.specs.Benchmarks.{scale};
ghost use Rattle.rules.specs.Rounding.{floor_div, ceil_div, nearest};

use quantity::year::YearBase;

// The greatest whole number not above z / B.
pub(crate) fn floor_div(z: i64, base: YearBase) -> i64
    ensures { result ≡ floor_div z (scale base) }
{
    z.div_euclid(i64::from(base.scale()))
}

// The least whole number not below z / B.
pub(crate) fn ceil_div(z: i64, base: YearBase) -> i64
    requires { negsuc 9223372036854775806 ≤ℤ z }
    ensures { result ≡ ceil_div z (scale base) }
{
    -(-z).div_euclid(i64::from(base.scale()))
}

// The whole number nearest to z / d; of two, the greater.
pub(crate) fn nearest_div(z: i128, d: u64) -> i128
    requires positive { 0 < d }
    requires room { unsigned_abs z ≤ 2 ^ 100 }
    ensures { result ≡ nearest z d }
{
    let d = i128::from(d);
    (2 * z + d).div_euclid(2 * d)
}
