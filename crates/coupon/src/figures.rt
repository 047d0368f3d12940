use quantity::date::Date;

// What a coupon comes to: the reported rate, the settled mark and the cumulative amount of its last line. A due states plain numbers,
// so the mark stands beside the rate.
#[derive(Clone, Copy, Debug, PartialEq, Eq)]
pub struct Figures {
    pub note: u32,
    pub start: Date,
    pub end: Date,
    pub reported: i64,
    pub settled: bool,
    pub cumulative: i64,
}
