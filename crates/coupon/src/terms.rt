use quantity::amount::CalculationAmount;
use quantity::benchmark::BenchmarkCode;
use quantity::date::Date;
use quantity::margin::Margin;
use rules::rule::Rule;

// The terms of a coupon. Its period has n days that accrue, from `start` to `end`; `note` is the number of the note.
#[derive(Clone, Copy, Debug, PartialEq, Eq)]
pub struct Terms {
    pub n: u32,
    pub start: Date,
    pub end: Date,
    pub rule: Rule,
    pub benchmark: BenchmarkCode,
    pub note: u32,
    pub amount: CalculationAmount,
    pub margin: Margin,
}
