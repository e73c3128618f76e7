//! An interface control document of two tables, ports and links: the network that it means, or its first fault.
#![tactic(auto)]

mod document;
mod fault;
mod fault_lines;
mod fault_words;
mod grid;
mod links;
mod names;
mod paths;
mod ports;
mod stops;
mod trees;

pub use document::{BranchEnd, Document, read_document};
pub use fault::{DocumentError, LineError, LineFault, TableFile};
pub use fault_lines::fault_line;
pub use links::{Branch, LinkKeys, LinkTable, read_links};
pub use names::Names;
pub use ports::{PortTable, read_ports};
