//! The command `check`: from a network's file and a recorded run's file to the verdict on the run, with what is found in it
//! beside the bounds where it is lawful, or to the line of a refusal.

mod checked;
mod laws;
mod on_files;
mod on_net;
mod refusals;

pub use laws::{
    admissible_runs_are_within_bounds, replies_are_complete, replies_are_determined,
    reports_guarantee, statuses_have_causes, verdicts_tell_runs,
};
pub use on_files::answer_on;
