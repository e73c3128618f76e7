//! The words of command lines: what they are, and taken ones parsed with `clap`.
#![tactic(auto)]

mod call;
mod command;
mod lines;

pub use call::{Call, parse};
pub use lines::{around_json, is_operand, word_of};
