//! Networks of ports over which multicast links go as trees: what an interface control document of a switched network tells;
//! and an order of the ports in which each comes after those from which links come to it, or the ring of ports that is told.
//! Whole numbers on a grid: times in picoseconds, rates in grains of 1/1024 bit a second. Frames and quanta have whole bits.
#![tactic(auto)]

mod fault;
mod lists;
mod network;
mod order;
mod ring;
mod spots;

pub use fault::Fault;
pub use network::{Discipline, Gate, Link, Network, Node, Port};
pub use order::{Plan, one_ring_is_told, order_or_ring, plan_of};
pub use spots::Spot;
