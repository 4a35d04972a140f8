//! A sheet while its rows come in: made from a header, filled row by row, and sealed when it is full.
#![tactic(auto)]

mod checks;
pub mod sealed;
pub mod sheet;
pub mod sizes;
#[cfg(test)]
mod tests;
