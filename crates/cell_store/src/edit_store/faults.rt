//! Why an edit is refused, where its network has a cycle or no table.

ghost use Rattle.std.specs.Prelude.{◌≡◌};
ghost use Rattle.cell_store.specs.edit_store.Faults as spec;

use net_cells::cell_table::AnalysisFault;
use net_edits::EditFault;
use net_model::net_graph::GraphFault;

pub(crate) fn graph_fault(fault: GraphFault) -> EditFault
    ensures { result ≡ spec.graph_fault fault }
{
    match fault {
        GraphFault::Cycle(walk) => EditFault::Cycle(walk),
        GraphFault::NoMemory => EditFault::NoMemory,
    }
}

pub(crate) fn analysis_fault(fault: AnalysisFault) -> EditFault
    ensures { result ≡ spec.analysis_fault fault }
{
    match fault {
        AnalysisFault::TooMany(cell) => EditFault::TooMany(cell),
        AnalysisFault::TooWide(cell) => EditFault::TooWide(cell),
        AnalysisFault::NoMemory => EditFault::NoMemory,
    }
}
