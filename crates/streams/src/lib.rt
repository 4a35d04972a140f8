//! A stream judged: cut into records, taken through make, add, seal, step and settle, and listed.
#![tactic(auto)]

mod courses;
mod cutting;
mod rows;
mod steps;
mod stop;
