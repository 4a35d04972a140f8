//! Values of terms: tuples at the front of lent slots, each once; the one function that puts a tuple in, and the
//! operations that make a new value from earlier ones.
#![tactic(auto)]

pub mod value;
