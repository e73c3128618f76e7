//! The order in which the servers of a network are taken, or the cycle that forbids one.
//!
//! A law is the contract of a function that does nothing: its body is empty, and its `ensures` is proved.

mod cycle;
mod laws;
mod placing;
mod waits;

pub use laws::{one_cycle, one_order, order_goes_forward, order_has_each_server, order_or_cycle};
pub use placing::{GraphFault, order};
