//! Rows of the two tables of an interface control document: ports, and links over them. What each row says by itself,
//! or the first of its faults.
#![tactic(auto)]

mod cells;
mod disciplines;
mod fault;
mod heads;
mod link_rows;
mod names;
mod port_rows;

pub use disciplines::GateRow;
pub use fault::{CellFault, Column, RowError, Wrong, at};
pub use heads::{LinkHead, PortHead, link_head, port_head, word_of};
pub use link_rows::{LinkRow, frame_on_wire, link_row};
pub use names::row_name;
pub use port_rows::{PortRow, port_row};
