//! The command `simulate`: from a network's file and a trace's file to the report on the simulated run beside the
//! bounds, or to the line of a refusal.

mod laws;
mod on_files;
mod on_net;

pub use laws::{
    open_servers_break_nothing, quiet_runs_are_within_bounds, replies_are_complete,
    replies_are_determined, reports_guarantee, status_tells_premises, statuses_have_causes,
};
pub use on_files::answer_on;
