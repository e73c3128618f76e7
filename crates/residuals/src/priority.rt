//! The service of one queue of a priority server: what the queues before it leave, less one packet of those after it.

mod service;

pub use crate::calls::{priority_curve_serves, priority_is_determined, priority_service_grows};
pub use residual_laws::priority_serves;
pub use service::priority_service;
