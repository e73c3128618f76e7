//! Why an edit is refused.

ghost use Rattle.std.specs.Prelude.{◌≡◌};
ghost use Rattle.net_edits.specs.declared.fault.EditFault.TheVariants.{NoMemory};

use net_cells::Cell;
use std::alloc::{AllocError, AllocFailed};

/// Why an edit is refused: the first of these that there is a cause for, in this order. (Own choice.)
#[derive(Drop)]
pub enum EditFault {
    /// A name that stands for a server is of no server, or one that stands for a flow is of no live flow; the first such
    /// name of the edit.
    UnknownName(String),
    /// A flow is added whose name a live flow has.
    NameTaken(String),
    /// A value may not be, or after the edit a quantum would be below the longest packet of the flows in its queue.
    BadValue,
    /// A flow is added where 256 numbers are given.
    LimitReached,
    /// The edited network has a cycle: its servers, by their numbers.
    Cycle(Vec<u32>),
    /// The first cell that is over a limit has too many pieces.
    TooMany(Cell),
    /// The first cell that is over a limit has too wide numbers.
    TooWide(Cell),
    /// There is no edit left that could be undone.
    NothingToUndo,
    /// An allocation was refused.
    NoMemory,
}

impl From<AllocError> for EditFault {
    ghost from_gives = { λ _ e. e ≡ NoMemory };

    fn from(_e: AllocError) -> EditFault {
        EditFault::NoMemory
    }
}

impl<T: Drop> From<AllocFailed<T>> for EditFault {
    ghost from_gives = { λ _ e. e ≡ NoMemory };

    fn from(_e: AllocFailed<T>) -> EditFault {
        EditFault::NoMemory
    }
}
