//! Kinds of label: what a code means, numbers, tags, and the layer of renames over any kind.
#![tactic(auto)]

pub mod among;
pub mod kind;
pub mod letters;
pub mod no_value;
pub mod numbers;
pub mod pair;
pub mod renames;
pub mod tags;
#[cfg(test)]
mod tests;
