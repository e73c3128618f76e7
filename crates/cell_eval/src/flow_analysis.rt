//! The analysis of a network: the values of all its cells, each made once, after those that it is made of.

mod each_cell;
mod in_order;

pub use each_cell::analysed;
pub use in_order::{analyse, analysed_in_order};
