#![tactic(auto)]

// Piles of observations: the direct pile, and the layers that go over any pile.
pub mod direct;
pub mod fault;
pub mod floor;
pub mod lag;
mod layer;
pub mod lockout;
pub mod observations;
mod position;
pub mod shift;
#[cfg(test)]
mod tests;
