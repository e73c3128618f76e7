//! The summary of a workload that was analysed and simulated.

mod largest;
mod laws;
mod summary;

pub use laws::{equations_give_one_summary, largest_bound_is_one, largest_delay_is_one};
pub use summary::summary_text;
