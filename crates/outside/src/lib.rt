//! Where the bytes of files come from and where a report goes: the two traits, their versions in
//! memory, which fail at the calls that they are told, and the versions over real files and
//! standard output. And the words of the command line.
#![tactic(auto)]

mod dir_inputs;
mod failing;
mod inputs;
mod mem_inputs;
mod mem_sink;
mod noted;
mod sink;
mod std_sink;
mod words;

pub use dir_inputs::DirInputs;
pub use inputs::{FetchFault, Inputs};
pub use mem_inputs::MemInputs;
pub use mem_sink::{MemSink, SINK_BYTES};
pub use noted::Noted;
pub use sink::{PutFault, Sink};
pub use std_sink::StdSink;
pub use words::words_of;

/// An allocation was refused. This is std's own error under the name that reads well here, so `?`
/// hands it on from every call of std and from every crate.
pub use std::alloc::AllocError as NoMemory;
