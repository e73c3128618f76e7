//! The packets of a recorded run: where each is, and what is yet to be worked of the one under way at a server.
#![tactic(auto)]

mod place;
mod underway;

pub use place::{Place, is_due, some_late};
pub use underway::{Underway, is_complete, is_other, may_leave, rest};
