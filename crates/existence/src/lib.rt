//! What is there, whether or not there is memory for it: an answer of each call of an operator, a table of each accepted network, a
//! reading of each text, a reply of each file. These are laws; the program does not use them.
#![tactic(auto)]

pub mod closures;
pub mod curves;
pub mod drafts;
pub mod edits;
pub mod reports;
pub mod scripts;
pub mod tables;
pub mod texts;
