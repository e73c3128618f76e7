//! The report on a recorded run: its worst values beside the bounds of its network, and its verdict.

mod laws;
mod report;
mod verdict;

pub use laws::equations_give_one_check_report;
pub use report::{lawful_text, unlawful_text};
