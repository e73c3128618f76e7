//! The answer on two tables.

ghost use Rattle.std.specs.Prelude.{◌≡◌, ◌≤◌, ℕ, List, map, IfOk};
ghost use Rattle.csv_rows.specs.Coming.{Stands, rows_of};
ghost use Rattle.csv_rows.specs.Rows.{AreLinedRowsOf, lined_of};
ghost use Rattle.bounds_command.specs.Replies as replies;
ghost use Rattle.bounds_command.specs.OnTables.{tables, named, IsReplyOn};
ghost use Rattle.bounds_command.specs.View.{reply_of};

use crate::form::Form;
use crate::on_document::on_document;
use crate::refusals::breaks_rule;
use csv_rows::{TableRow, TableRows, read_table, table_rows};
use document_tables::{DocumentError, LineFault, TableFile, read_document};
use replies::Answer;
use std::alloc::{AllocError, Global};

// The name of a file.
fn file_named<'a>(file: TableFile, ports: &'a str, links: &'a str) -> &'a str
    ensures { result.now ≡ named ports.now links.now file }
{
    match file {
        TableFile::Ports => ports,
        TableFile::Links => links,
    }
}

// The answer on two tables with these names, of which this one has this first fault.
fn has_fault(
    alloc: Global,
    ports_file: &str,
    links_file: &str,
    file: TableFile,
    fault: LineFault,
) -> Result<Answer, AllocError>
    ensures { IfOk result (λ r. reply_of r ≡ replies.has_fault (named ports_file.now links_file.now file) fault) }
{
    breaks_rule(alloc, file_named(file, ports_file, links_file), &fault)
}

// The answer on the rows of two tables with these names.
fn on_rows(
    alloc: Global,
    ports_file: &str,
    ports: &[TableRow],
    links_file: &str,
    links: &mut TableRows,
    overhead: u64,
    form: Form,
) -> Result<Answer, AllocError>
    requires overhead { overhead ≤ 1048576 }
    requires stands { Stands links.old }
    ensures { (port_bytes link_bytes : List ℕ) → AreLinedRowsOf port_bytes (map lined_of ports.now)
        → AreLinedRowsOf link_bytes (rows_of links.old)
        → IfOk result (λ r.
        IsReplyOn (tables ports_file.now port_bytes links_file.now link_bytes) overhead form (reply_of r)) }
{
    match read_document(alloc, ports, links, overhead) {
        Ok(document) => on_document(alloc, &document, form),
        Err(DocumentError::Fault(file, fault)) => {
            has_fault(alloc, ports_file, links_file, file, fault)
        }
        Err(DocumentError::NoMemory) => Err(AllocError),
    }
}

/// The answer on two tables with these names and these bytes, in this order: the first fault, a ring of ports, and else
/// the report in a form, with what it promises of every lawful run. A frame has `overhead` bytes on the wire beside its
/// own, at most 2^20. Refused only for want of memory.
pub fn on_tables(
    alloc: Global,
    ports_file: &str,
    ports_bytes: &[u8],
    links_file: &str,
    links_bytes: &[u8],
    overhead: u64,
    form: Form,
) -> Result<Answer, AllocError>
    requires { overhead ≤ 1048576 }
    ensures { IfOk result (λ r.
        IsReplyOn (tables ports_file.now ports_bytes.now links_file.now links_bytes.now) overhead form (reply_of r)) }
{
    let ports = read_table(alloc, ports_bytes)?;
    let mut links = table_rows(alloc, links_bytes);
    on_rows(
        alloc, ports_file, &ports, links_file, &mut links, overhead, form,
    )
}
