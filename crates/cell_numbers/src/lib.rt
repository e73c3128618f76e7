//! The numbers of a network's cells, and those that its curves are made with: who is at a queue and how long packets are
//! there, what may come over a link, how far one cell's curve is behind another's, and the lesser of two bounds.
#![tactic(auto)]

mod buckets;
mod found;
mod numbers;
mod reading;

pub use buckets::link_bucket;
pub use found::{Pick, chosen_at, link, longest_at, packet, rate};
pub use numbers::{bound_of, delay_between, numbered, place_of, theta_of};
pub use reading::{curve_at, number_at};
