//! The command that bounds the delays and backlogs of a network: from the bytes of its file to the report, or to the
//! line of a refusal.

mod laws;
mod on_file;
mod on_net;

pub use laws::{
    replies_are_complete, replies_are_determined, statuses_have_causes, unbounded_is_infinite,
};
pub use on_file::answer_on;
