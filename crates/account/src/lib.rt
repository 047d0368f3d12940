#![tactic(auto)]

// The coupon account: its calls, and what holds of it after every list of them.
pub mod account;
pub mod due;
pub mod offer;
pub mod phase;
pub mod request;
