//! Where a run first breaks what it is taken to keep: for each server the first window in which it works less than its curve, and
//! what one flow or one server breaks first as a breach with its time.
//!
//! A law is the contract of a function that does nothing: its body is empty, and its `ensures` is proved.
#![tactic(auto)]

mod classes;
pub mod first_breaches;
mod found;
mod idle;
mod laws;
mod near;
mod ramps;
mod reach;
mod scan;
mod seen;
mod service;
mod shorts;
pub mod simulated_sizes;
mod span;
mod watched;
mod windows;

pub use flow_watch::entries_of;
pub use found::{Found, arrival_breach, earlier, service_breach, size_breach, time_if_any};
pub use laws::{earlier_is_first, sights_are_views};
pub use service::first_idle;
pub use span::{Ramp, Span};
pub use watched::{Stretch, Watched, watch};
