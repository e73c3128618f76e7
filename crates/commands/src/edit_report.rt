//! Texts about edits of a network: what is said of one, and the report on a list of them, line by line and as JSON.

mod json;
mod listing;
mod said;

pub use listing::edit_text_in;
pub use said::{Said, said_of};
