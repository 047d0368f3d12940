#![tactic(auto)]

// Schedules of good days.
pub mod lent;
pub mod position;
pub mod schedule;
