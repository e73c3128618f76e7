//! What is wrong, and what to write.

ghost use Rattle.std.specs.Prelude.{◌≡◌};
ghost use Rattle.document_tables.specs.FaultLines as spec;

use document_rows::{Column, Wrong};

/// The number of the port of a path that something is wrong with.
pub(crate) fn port_of(wrong: Wrong) -> Option<usize>
    ensures { result ≡ spec.port_of wrong }
{
    match wrong {
        Wrong::UnknownPort(port) => Some(port),
        Wrong::PortTwice(port) => Some(port),
        Wrong::NoSuchQueue(port) => Some(port),
        Wrong::QuantumTooShort(port) => Some(port),
        Wrong::AfterAnother(port) => Some(port),
        _ => None,
    }
}

/// What is wrong.
pub(crate) fn what_of(wrong: Wrong) -> &'static str
    ensures { result.now ≡ spec.what_of wrong }
{
    match wrong {
        Wrong::Missing => "the head line lacks it",
        Wrong::ColumnTwice => "the head line has it twice",
        Wrong::TooManyCells => "more cells than the head line",
        Wrong::TooManyRows => "one row too many",
        Wrong::TooManyLinks => "one link too many",
        Wrong::Empty => "empty",
        Wrong::NoName => "no name",
        Wrong::NameTwice => "an earlier row has this name",
        Wrong::NoNumber => "no number",
        Wrong::NoWhole => "no whole number",
        Wrong::TooSmall => "below the least",
        Wrong::TooLarge => "above the most",
        Wrong::OffGrid => "no whole number of picoseconds",
        Wrong::NoDiscipline => "no discipline",
        Wrong::NoGate => "no gate",
        Wrong::SlotTooLong => "the slot is longer than the cycle",
        Wrong::Differs => "another one than in the first row of the link",
        Wrong::PathTooLong => "more than 64 ports",
        Wrong::UnknownPort(_) => "has no row in the table of ports",
        Wrong::PortTwice(_) => "stands in the path before",
        Wrong::NoSuchQueue(_) => "has no queue of this priority",
        Wrong::QuantumTooShort(_) => "has a quantum shorter than the frame",
        Wrong::BeginsElsewhere => "begins at another port than the link",
        Wrong::AfterAnother(_) => "comes after another port than in an earlier path",
    }
}

// What a cell of a column has to be.
fn form_of(column: Column) -> &'static str
    ensures { result.now ≡ spec.form_of column }
{
    match column {
        Column::Name => "write 1 to 32 letters, digits, _ or -",
        Column::Rate => "write Mbit/s, from 0.000001 to 1000000",
        Column::Discipline => {
            "write fifo, priority N (1 to 8) or drr Q0 Q1 .. (1 to 8 quanta of 1 to 2097152 bytes)"
        }
        Column::Gate => {
            "write CYCLE SLOT in microseconds, the slot from 0.000001 to the cycle, the cycle to 1000000000"
        }
        Column::Bag => "write milliseconds, from 0.000000001 to 1000000",
        Column::LargestFrame => "write bytes, a whole number from 1 to 1048576",
        Column::Priority => "write a whole number from 0 to 7",
        Column::Path => "write 1 to 64 names of ports with spaces between them",
        _ => "write microseconds, from 0 to 1000000000",
    }
}

/// What to write.
pub(crate) fn mend_of(column: Column, wrong: Wrong) -> &'static str
    ensures { result.now ≡ spec.mend_of column wrong }
{
    match wrong {
        Wrong::Missing => "add the column",
        Wrong::ColumnTwice => "keep one",
        Wrong::TooManyCells => "put a cell with a comma into double quotes",
        Wrong::TooManyRows => "write at most 4096 ports and 131072 branches",
        Wrong::TooManyLinks => "write at most 16384 links",
        Wrong::NameTwice => "give each port a name of its own",
        Wrong::NoNumber => {
            "write a number as 12, 1.5 or 3/2, of at most 18 digits in all, or on each side of the slash"
        }
        Wrong::OffGrid => "write microseconds with at most 6 digits behind the point",
        Wrong::Differs => "write the same in each row of the link",
        Wrong::UnknownPort(_) => "write a name of the table of ports",
        Wrong::PortTwice(_) => "pass each port once",
        Wrong::NoSuchQueue(_) => "write a lower priority, or give the port more queues",
        Wrong::QuantumTooShort(_) => "make the quantum as long as the frame with the overhead",
        Wrong::BeginsElsewhere => "begin the paths of a link at one port",
        Wrong::AfterAnother(_) => "let it come after one port in all paths of the link",
        _ => form_of(column),
    }
}
