//! The simulator: the stated run of a network and a trace.

mod making;
mod measured;
mod reads;
mod run;
mod simulation;
mod taking;
mod works;

pub use measured::{SimRun, measured_run, simulate};
pub use run::run_of;
