//! What is measured of a run, be it simulated or recorded: the worst delay of each flow, and the greatest backlog of
//! each queue.

mod flows;
mod gauge;
mod gauges;
mod laws;
mod levels;
mod worst;

pub use laws::lawful_runs_are_numbered;
pub use levels::peaks;
pub use worst::worst_delays;
