//! What a queue of a priority server, and of a deficit round robin server, is served, and what a server of any
//! discipline leaves, as functions of time; and all three as a rate with a debt (`lines`): definitions and laws. What is
//! said of the calls that make the first two of these services stands in `residuals::calls`.
#![tactic(auto)]

mod drr;
pub mod lines;
mod priority;
mod rest;

pub use drr::drr_serves;
pub use priority::priority_serves;
pub use rest::rest_serves;
