//! The line that tells the first fault of a document: the file, the line, the column, what is wrong and what to write.

ghost use Rattle.std.specs.Prelude.{◌≡◌, IfOk};
ghost use Rattle.std.specs.String.{string_bytes};
ghost use Rattle.document_tables.specs.FaultLines as spec;

use crate::fault::LineFault;
use crate::fault_words::{mend_of, port_of, what_of};
use document_rows::{Wrong, word_of};
use std::alloc::{AllocError, Global};

// Which port of a path, where it is one.
fn port_text(alloc: Global, wrong: Wrong) -> Result<String, AllocError>
    ensures { IfOk result (λ text. string_bytes text ≡ spec.port_text (spec.port_of wrong)) }
{
    match port_of(wrong) {
        Some(port) => format!(in alloc; "port {port} "),
        None => Ok(String::new(alloc)),
    }
}

// Where it is.
fn place_text(alloc: Global, file: &str, fault: &LineFault) -> Result<String, AllocError>
    ensures { IfOk result (λ text. string_bytes text ≡ spec.place_text file.now fault.now) }
{
    let number = fault.line;
    let column = word_of(fault.column);
    format!(in alloc; "netbound: {file} line {number} column {column}: ")
}

/// `netbound: FILE line N column NAME: WHAT: MEND`, and the end of the line.
pub fn fault_line(alloc: Global, file: &str, fault: &LineFault) -> Result<String, AllocError>
    ensures { IfOk result (λ line. string_bytes line ≡ spec.fault_line file.now fault.now) }
{
    let place = place_text(alloc, file, fault)?;
    let port = port_text(alloc, fault.wrong)?;
    let what = what_of(fault.wrong);
    let mend = mend_of(fault.column, fault.wrong);
    format!(in alloc; "{place}{port}{what}: {mend}\n")
}
