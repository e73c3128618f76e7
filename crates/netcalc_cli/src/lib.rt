//! The top call: from the words of the command line to the bytes that are written and the status. Each command's files
//! are fetched, and it answers by its report or by the line of a refusal.
#![tactic(auto)]

mod answering;
mod laws;
mod top_call;
mod words;

pub use laws::{calls_are_determined, replies_are_determined};
pub use replies::Status;
pub use top_call::run;
