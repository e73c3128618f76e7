//! Why a document is refused.

ghost use Rattle.std.specs.Prelude.{◌≡◌};
ghost use Rattle.document_rows.specs.declared.fault.Column.TheVariants as column;
ghost use Rattle.document_rows.specs.declared.fault.RowError.{RowError as SpecError};
ghost use Rattle.document_rows.specs.declared.fault.RowError.TheVariants as row_errors;
ghost use Rattle.document_tables.specs.declared.fault.LineError.TheVariants as errors;
ghost use Rattle.document_tables.specs.Tables as spec;

use document_rows::{CellFault, Column, RowError, Wrong};
use std::alloc::{AllocError, AllocFailed};

/// The first fault of a table. Lines count from 1.
#[derive(Clone, Copy)]
pub struct LineFault {
    pub line: usize,
    pub column: Column,
    pub wrong: Wrong,
}

/// Why nothing is read of a table.
#[derive(Clone, Copy)]
pub enum LineError {
    Fault(LineFault),
    /// An allocation was refused.
    NoMemory,
}

impl From<AllocError> for LineError {
    ghost from_gives = { λ _ e. e ≡ errors.NoMemory };

    fn from(_e: AllocError) -> LineError {
        LineError::NoMemory
    }
}

impl<T: Drop> From<AllocFailed<T>> for LineError {
    ghost from_gives = { λ _ e. e ≡ errors.NoMemory };

    fn from(_e: AllocFailed<T>) -> LineError {
        LineError::NoMemory
    }
}

/// The tables of a document.
#[derive(Clone, Copy)]
pub enum TableFile {
    Ports,
    Links,
}

/// Why a document is refused.
#[derive(Clone, Copy)]
pub enum DocumentError {
    /// The first fault of a table.
    Fault(TableFile, LineFault),
    /// An allocation was refused.
    NoMemory,
}

/// Something is wrong with the name of a row.
pub(crate) fn wrong_name(wrong: Wrong) -> RowError
    ensures { result ≡ row_errors.Cell (record { column = column.Name; wrong = wrong }) }
{
    RowError::Cell(CellFault {
        column: Column::Name,
        wrong,
    })
}

/// A fault of the row of a line.
pub(crate) fn line_error(line: usize, error: RowError) -> LineError
    ensures { result ≡ spec.line_error line error }
{
    match error {
        RowError::Cell(fault) => LineError::Fault(LineFault {
            line,
            column: fault.column,
            wrong: fault.wrong,
        }),
        RowError::NoMemory => LineError::NoMemory,
    }
}

/// A table without a head line lacks its first column.
pub(crate) fn no_head() -> LineError
    ensures { result ≡ spec.no_head }
{
    LineError::Fault(LineFault {
        line: 1,
        column: Column::Name,
        wrong: Wrong::Missing,
    })
}
