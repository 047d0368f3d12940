#![tactic(auto)]

// Calendars: sets of good days.
pub mod calendar;
mod civil;
pub mod easter;
pub mod holidays;
pub mod month;
pub mod target;
#[cfg(test)]
mod tests;
pub mod year;
