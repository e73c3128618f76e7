//! What the cells of a table write: words between blanks, whole numbers, and exact numbers that are rounded to a side.
#![tactic(auto)]

mod amount;
mod names;
mod words;

pub use amount::{Amount, whole_in};
pub use names::{is_name, name_text};
pub use words::{word_at, words_in};
