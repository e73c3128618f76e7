//! What each cell of a network is by the cells that it is made of: the program's evaluator, which counts each operator. And
//! the values of all cells.
#![tactic(auto)]

mod bounds;
mod counted;
mod curve_sums;
mod curves;
mod each_kind;
pub mod flow_analysis;
mod inputs;
mod named_cells;
mod nodes;
mod number_sums;
mod numbers;
mod parts;
mod paths;
mod recent;
mod services;
mod sharing;
mod sums;

pub use counted::Counted;
pub use net_cells::cell_table::{Analysis, AnalysisFault, CellValue, Evaluator, Table, Value};
pub use net_cells::{Cell, Kind, cells, operands, work};
pub use recent::Recent;
