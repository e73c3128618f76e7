//! Why a table is refused.

ghost use Rattle.std.specs.Prelude.{◌≡◌, ◌≢◌};
ghost use Rattle.input_texts.specs.declared.table_text.fault.TableKind.TheVariants.{NoMemory};
ghost use Rattle.input_texts.specs.table_text.Traces.{out_of_memory};

use std::alloc::{AllocError, AllocFailed};

/// What is wrong with a row of a table.
#[derive(Clone, Copy)]
pub enum TableKind {
    /// A field has a byte outside of 32 to 126.
    T1,
    /// The row begins with an unknown word.
    T2,
    /// It has another number of fields than its word asks for.
    T3,
    /// A field is not what its word asks for, or out of its range.
    T4,
    /// It names a flow or a server that the network has not. (Traces alone.)
    T5,
    /// A packet enters before an earlier row's. (Traces alone.)
    T6,
    /// It is one row too many.
    T7,
    /// An allocation was refused.
    NoMemory,
}

/// What is wrong with a table, and with which row, from 1 on: empty lines are not counted. The row is 0 where memory
/// ran out.
#[derive(Clone, Copy)]
pub struct TableFault {
    pub kind: TableKind,
    pub row: u32,
}

impl From<AllocError> for TableKind {
    ghost from_gives = { λ _ e. e ≡ NoMemory };

    fn from(_e: AllocError) -> TableKind {
        TableKind::NoMemory
    }
}

impl<T: Drop> From<AllocFailed<T>> for TableKind {
    ghost from_gives = { λ _ e. e ≡ NoMemory };

    fn from(_e: AllocFailed<T>) -> TableKind {
        TableKind::NoMemory
    }
}

/// The fault of a row.
pub(crate) fn fault_at(kind: TableKind, row: u32) -> TableFault
    ensures memory { kind ≡ NoMemory → result ≡ out_of_memory }
    ensures other { kind ≢ NoMemory → (result.kind ≡ kind) × (result.row ≡ row) }
{
    match kind {
        TableKind::NoMemory => TableFault { kind, row: 0 },
        _ => TableFault { kind, row },
    }
}
