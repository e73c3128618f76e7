//! Operators on curves that need no splitting of a time: those whose answer at a time is made of the operands' values at one time
//! (`pointwise`), and those whose answer is made of all times on one side of it (`running`).
#![tactic(auto)]

pub mod pointwise;
pub mod running;

pub use curve_call::intact;
