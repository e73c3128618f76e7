//! The service of one queue of a deficit round robin server: its share of the server's service.

mod service;
mod turn;

pub use crate::calls::{drr_curve_serves, drr_is_determined, drr_service_grows};
pub use residual_laws::drr_serves;
pub use service::drr_service;
