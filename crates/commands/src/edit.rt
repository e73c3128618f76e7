//! The answer on a network's file and a list of edits: the report on the edits, or the line of a refusal.

mod laws;
mod on_files;
mod on_net;
mod row;
mod rows;

pub use laws::{
    replies_are_complete, replies_are_determined, reports_guarantee, statuses_have_causes,
};
pub use on_files::answer_on;
