//! What the values of cells are made from.

use net_cells::cell_table::Value;
use net_model::Network;
use std::alloc::Global;
use upp_limits::OpFault;

/// What the value of a cell is made from: the network, and a table with the values of the cells before.
#[derive(Drop)]
pub(crate) struct Inputs<'a, T> {
    pub(crate) alloc: Global,
    pub(crate) net: &'a Network,
    pub(crate) table: &'a T,
}

/// The value of a cell, or why it has none.
pub(crate) type Answer = Result<Value, OpFault>;
