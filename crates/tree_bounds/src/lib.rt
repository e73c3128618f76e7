//! The bounds of a whole network of ports and multicast links: each queue's delay and backlog, and each branch's delay; and what they promise
//! of every lawful run (`guarantee`).
#![tactic(auto)]

mod analysis;
mod arriving;
mod bounds;
mod groups;
pub mod guarantee;
mod incoming;
mod onward;

pub use analysis::{Table, bounds_of};
