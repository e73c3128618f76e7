//! Why a network has no analysis.

ghost use Rattle.std.specs.Prelude.{◌≡◌};
ghost use Rattle.net_cells.specs.cell_table.Refusals.{fault_at};

use crate::Cell;
use upp_limits::OpFault;

/// Why there is no table of all values.
#[derive(Debug, Clone, Copy, PartialEq, Eq)]
pub enum AnalysisFault {
    /// This cell is the first with an operator over a limit, and that makes too many pieces.
    TooMany(Cell),
    /// This cell is the first with an operator over a limit, and that has too wide numbers.
    TooWide(Cell),
    /// An allocation was refused.
    NoMemory,
}

/// Why there is no table, where this is why a cell has no value.
pub fn refusal(cell: Cell, fault: OpFault) -> AnalysisFault
    ensures { result ≡ fault_at cell fault }
{
    match fault {
        OpFault::TooMany => AnalysisFault::TooMany(cell),
        OpFault::TooWide => AnalysisFault::TooWide(cell),
        OpFault::NoMemory => AnalysisFault::NoMemory,
    }
}
