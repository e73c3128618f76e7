//! Networks that are edited and go back, with the values of their cells.

mod faults;
mod plan;
mod spare;
mod store;

pub use store::Store;
