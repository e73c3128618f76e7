//! The evaluator of the program.

use crate::inputs::Inputs;
use crate::recent::Recent;
use net_cells::Cell;
use net_cells::cell_table::{Evaluator, Table, Value};
use net_model::Network;
use outcomes::Steps;
use std::alloc::Global;
use std::sync::ledger::Ledger;
use upp_limits::OpFault;

/// Makes values by the definitions, and counts each operator on curves in the caller's counter. The last service of a priority
/// queue is kept: where the next is made of the same it is shared, and counted as if it were made.
#[derive(Drop)]
pub struct Counted<'a, L: Ledger> {
    pub alloc: Global,
    pub steps: &'a mut Steps<L>,
    pub recent: &'a mut Recent,
}

impl<'a, L: Ledger> Evaluator<Value> for Counted<'a, L> {
    ghost count = { λ c. c.steps.now };

    ghost counter = { λ c. c.steps.ghost_name };

    fn eval<T: Table<Value>>(
        &mut self,
        cell: Cell,
        net: &Network,
        table: &T,
    ) -> Result<Value, OpFault> {
        net.keeps();
        let inputs = Inputs {
            alloc: self.alloc,
            net,
            table,
        };
        inputs.value(cell, self.recent, self.steps)
    }
}
