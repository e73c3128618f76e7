//! The calls that make the service of a queue of a priority server, and of a deficit round robin server: definitions and
//! laws. The code of these calls stands in `priority_residual` and `drr_residual`.

mod drr;
mod in_turn;
mod priority;

pub use drr::{drr_curve_serves, drr_is_determined, drr_service_grows};
pub use in_turn::services_are_placed;
pub use priority::{priority_curve_serves, priority_is_determined, priority_service_grows};
