//! The answer on a network's file and a trace: the least arrival curve of a flow's packets and the least bucket for a
//! rate, or the line of a refusal.

mod laws;
mod on_files;
mod on_trace;
mod refusals;

pub use laws::{
    replies_are_complete, replies_are_determined, reports_are_least, statuses_are_four,
    statuses_have_causes,
};
pub use on_files::answer_on;
