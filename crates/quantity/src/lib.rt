#![tactic(auto)]

// The quantities of a coupon, each a type of its own; the benchmarks; the refusals; the search by date.
//
// The bounded numbers are not one generic type: every contract would then say "number" for ticks, places, cents and days alike, and
// a limit would stand in an impl and not on the type. For the same reason their makers and readers have names, where `From` and
// `TryFrom` would not say the unit.
pub mod amount;
pub mod benchmark;
pub mod date;
pub mod dated;
pub mod days;
pub mod fault;
pub mod margin;
pub mod position;
pub mod rate;
pub mod refusal;
pub mod reported;
pub mod total;
pub mod weight;
pub mod year;
