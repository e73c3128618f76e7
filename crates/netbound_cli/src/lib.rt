//! The top call of netbound: from the words of the command line to the bytes that are written and the status.
#![tactic(auto)]

mod laws;
mod texts;
mod top_call;
mod words;

pub use laws::replies_are_determined;
pub use replies::Status;
pub use top_call::run;
