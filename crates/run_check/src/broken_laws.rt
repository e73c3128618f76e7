//! Which laws a recorded run breaks: each law as a step that the state of the run does not allow, the first that is
//! broken, and that a recorded run is lawful exactly where it breaks none.

mod law;
mod laws;

pub use law::Law;
pub use laws::{broken_runs_are_unlawful, first_broken_is_one, unbroken_runs_are_lawful};
