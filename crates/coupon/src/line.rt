use crate::day::Day;
use quantity::days::DayCount;
use rules::bounds::Bounds;

// A day with what the rules give at its end: the sum of the weights, the bounds of the factor, the reported rate in places of 10^-7,
// whether both bounds give it, and the amounts in cents. These are plain numbers, and no `TotalWeight` or `Report`, since the rules
// give a line for a row of any weight, and those types hold only what a sum of weights of at most 400 gives.
#[derive(Clone, Copy, Debug, PartialEq, Eq)]
pub struct Line {
    pub day: Day,
    pub total: DayCount,
    pub bounds: Bounds,
    pub reported: i64,
    pub settled: bool,
    pub cumulative: i64,
    pub daily: i64,
}
