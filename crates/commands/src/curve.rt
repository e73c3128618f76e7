//! The command that answers a script of curve expressions: from the bytes of its file to the answers, or to the line
//! of a refusal.

mod laws;
mod on_file;

pub use laws::{replies_are_complete, replies_are_determined, statuses_have_causes};
pub use on_file::answer_on;
