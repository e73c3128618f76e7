//! The command `exercise`: from the number of a workload to the summary of its analysis and its simulation, or to the
//! line of a refusal.

mod answering;
mod laws;
mod on_workload;

pub use answering::answer_on;
pub use laws::{
    quiet_summaries_are_within_bounds, replies_are_complete, replies_are_determined,
    statuses_have_causes, summaries_guarantee, summary_tells_premises,
};
