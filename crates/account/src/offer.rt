use quantity::benchmark::BenchmarkCode;
use rules::rule::Rule;

// What an account is opened on, beside a pile for the number of days, the start and the end: the amount in cents and the margin in
// places of 10^-7 are judged by the opening.
#[derive(Clone, Copy, Debug, PartialEq, Eq)]
pub struct Offer {
    pub rule: Rule,
    pub benchmark: BenchmarkCode,
    pub note: u32,
    pub amount: u32,
    pub margin: i32,
}
