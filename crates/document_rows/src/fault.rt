//! What is wrong with a row.

ghost use Rattle.std.specs.Prelude.{◌≡◌, IfErr};
ghost use Rattle.document_rows.specs.declared.fault.RowError.TheVariants as errors;
ghost use Rattle.document_rows.specs.Reads as spec;

use std::alloc::{AllocError, AllocFailed};

/// The columns of the tables.
#[derive(Clone, Copy)]
pub enum Column {
    Name,
    Rate,
    Latency,
    Link,
    Discipline,
    Gate,
    Bag,
    LargestFrame,
    Jitter,
    Priority,
    Path,
    Deadline,
}

/// What is wrong with a head line or with a cell of a row. Ports of a path count from 1.
#[derive(Clone, Copy)]
pub enum Wrong {
    /// The head line lacks the column.
    Missing,
    /// The head line has the column twice.
    ColumnTwice,
    /// The row has more cells than the head line.
    TooManyCells,
    /// It is one row too many.
    TooManyRows,
    /// It is the first row of one link too many.
    TooManyLinks,
    /// The cell is empty.
    Empty,
    /// It is no name of 1 to 32 letters, digits, `_` and `-`.
    NoName,
    /// An earlier row has the name.
    NameTwice,
    /// It is no number.
    NoNumber,
    /// It is no whole number.
    NoWhole,
    /// The number is below the least.
    TooSmall,
    /// The number is above the largest.
    TooLarge,
    /// The number is not on the grid: it is no whole number of picoseconds.
    OffGrid,
    /// It is no discipline.
    NoDiscipline,
    /// It is no gate.
    NoGate,
    /// The slot of a gate is longer than its cycle.
    SlotTooLong,
    /// It differs from the first row of the link.
    Differs,
    /// The path has too many ports.
    PathTooLong,
    /// No port has the name of this one of the path.
    UnknownPort(usize),
    /// This port of the path stands in it before.
    PortTwice(usize),
    /// This port of the path has no queue of the link's priority.
    NoSuchQueue(usize),
    /// The quantum of the link's queue at this port of the path is shorter than its frame.
    QuantumTooShort(usize),
    /// The path begins at another port than the earlier ones of the link.
    BeginsElsewhere,
    /// This port of the path comes after another port than in an earlier path of the link.
    AfterAnother(usize),
}

/// What is wrong with a row, and in which of its columns.
#[derive(Clone, Copy)]
pub struct CellFault {
    pub column: Column,
    pub wrong: Wrong,
}

/// Why nothing is read of a row.
#[derive(Clone, Copy)]
pub enum RowError {
    /// Something is wrong with it.
    Cell(CellFault),
    /// An allocation was refused.
    NoMemory,
}

impl From<CellFault> for RowError {
    ghost from_gives = { λ fault e. e ≡ errors.Cell fault };

    fn from(fault: CellFault) -> RowError {
        RowError::Cell(fault)
    }
}

impl From<AllocError> for RowError {
    ghost from_gives = { λ _ e. e ≡ errors.NoMemory };

    fn from(_e: AllocError) -> RowError {
        RowError::NoMemory
    }
}

impl<T: Drop> From<AllocFailed<T>> for RowError {
    ghost from_gives = { λ _ e. e ≡ errors.NoMemory };

    fn from(_e: AllocFailed<T>) -> RowError {
        RowError::NoMemory
    }
}

/// What is read in a column.
pub fn at<T>(column: Column, read: Result<T, Wrong>) -> Result<T, CellFault>
    ensures { result ≡ spec.at column read }
{
    match read {
        Ok(value) => Ok(value),
        Err(wrong) => Err(CellFault { column, wrong }),
    }
}
