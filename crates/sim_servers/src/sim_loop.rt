//! The parts of the simulator's loop: what of all that is due comes first, and what a step does to the station of its
//! server.

mod candidates;
mod moves;

pub use candidates::first_due;
pub use moves::{arrive_at, leave_at, turn_at, work_at};
