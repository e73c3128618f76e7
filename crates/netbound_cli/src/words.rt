//! The words of netbound's command line, as `clap` parses them.

mod command;
mod request;

pub use request::{Bounds, Request, WordFault, request_of};
