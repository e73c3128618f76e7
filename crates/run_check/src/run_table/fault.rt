//! Why the text of a recorded run is refused.

ghost use Rattle.std.specs.Prelude.{◌≡◌};
ghost use Rattle.run_check.specs.declared.run_table.fault.RunKind.TheVariants.{NoMemory};

use std::alloc::{AllocError, AllocFailed};

/// What is wrong with a row of a recorded run.
#[derive(Clone, Copy)]
pub enum RunKind {
    /// A field has a byte outside of 32 to 126.
    T1,
    /// The row begins with an unknown word.
    T2,
    /// It has another number of fields than its word asks for.
    T3,
    /// A field is not what its word asks for, or out of its range.
    T4,
    /// It names a flow or a server that the network has not.
    T5,
    /// It is one row too many.
    T7,
    /// It comes after the row of the run's end; or that row is missing, in the place after the last row.
    T8,
    /// An allocation was refused.
    NoMemory,
}

/// What is wrong with a recorded run, and with which row, from 1 on: empty lines are not counted. The row is 0 where
/// memory ran out.
#[derive(Clone, Copy)]
pub struct RunFault {
    pub kind: RunKind,
    pub row: u32,
}

impl From<AllocError> for RunKind {
    ghost from_gives = { λ _ e. e ≡ NoMemory };

    fn from(_e: AllocError) -> RunKind {
        RunKind::NoMemory
    }
}

impl<T: Drop> From<AllocFailed<T>> for RunKind {
    ghost from_gives = { λ _ e. e ≡ NoMemory };

    fn from(_e: AllocFailed<T>) -> RunKind {
        RunKind::NoMemory
    }
}
