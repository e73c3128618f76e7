//! How a program's call begins and ends: its files are fetched in order, or it is told which was not had, and its answer is given by
//! one put.
#![tactic(auto)]

mod answer;
mod fetching;
mod giving;
mod unread;

pub use answer::{Answer, Status};
pub use fetching::{Unread, fetch_one, fetch_two};
pub use giving::give;
pub use unread::unread_answer;
