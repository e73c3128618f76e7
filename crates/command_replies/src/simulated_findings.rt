//! What is found when a trace of a network is simulated: the worst delays and greatest backlogs of its stated run, and
//! what that run breaks first.

mod finding;
mod told;

pub use finding::find;
pub use simulator::SimFault;
