#![tactic(auto)]

// A coupon's terms, and the lines that the rules give for its days.
pub mod day;
pub mod figures;
pub mod line;
pub mod lines;
pub mod terms;
