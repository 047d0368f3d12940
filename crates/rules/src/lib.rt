#![tactic(auto)]

// The accrual rules with their error bounds, and the rate and the amount that a coupon reports.
pub mod bounds;
pub mod observation;
pub mod report;
mod rounding;
pub mod rule;
pub mod run;
