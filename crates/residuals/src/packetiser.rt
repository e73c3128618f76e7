//! What a service is worth to whole packets: the service less one packet.

mod laws;
mod service;

pub use laws::{packet_curve_serves, packet_service_grows};
pub use service::packetised;
