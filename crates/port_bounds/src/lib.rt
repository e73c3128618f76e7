//! One port: the services that each of its queues gets, by the discipline, and the least delay and backlog over them, by the
//! stairs that arrive there and by their lines.
#![tactic(auto)]

mod arrivals;
mod by_stairs;
mod services;
mod stair_arrivals;

pub use arrivals::Arrivals;
pub use by_stairs::{stair_rows, stair_rows_are_held};
pub use services::{own_service, services_of};
pub use stair_arrivals::StairArrivals;
