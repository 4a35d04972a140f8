//! A trial of a sheet: steps by rules on lent stores, its verdict, and what is left once it is settled.
#![tactic(auto)]

mod looks;
mod progress;
mod room;
pub mod settled;
pub mod trial;
mod writes;
