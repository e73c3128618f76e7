//! The table of ports.

ghost use Rattle.std.specs.Prelude.{◌≡◌, map, length};
ghost use Rattle.csv.specs.Records.{fields_of};
ghost use Rattle.document_tables.specs.Ports as spec;
ghost use Rattle.document_tables.specs.Tables.{Makes, TellsTable, after_rows, row_view};

use crate::fault::{LineError, line_error, no_head, wrong_name};
use crate::names::{Names, add_name};
use csv::ByteRecord;
use csv_rows::TableRow;
use document_rows::{PortHead, PortRow, RowError, Wrong, port_head, port_row, row_name};
use std::alloc::Global;

const MOST_PORTS: usize = 4_096;

/// The ports of a table by their numbers: the names, and what the rows say.
#[derive(Drop)]
pub struct PortTable {
    pub names: Names,
    pub ports: Vec<PortRow>,
}

// No port.
fn no_ports(alloc: Global) -> PortTable
    ensures { spec.ports_view result ≡ spec.no_ports }
{
    PortTable {
        names: Names::new(alloc),
        ports: Vec::new(alloc),
    }
}

// Puts the port of a row behind the others.
#[tactic(auto, unfolding(crate::specs::Ports::with_port))]
fn add_port(
    alloc: Global,
    head: &PortHead,
    table: &mut PortTable,
    row: &ByteRecord,
) -> Result<(), RowError>
    ensures { Makes result (spec.with_port head.now (spec.ports_view table.old) (fields_of row.now))
        (spec.ports_view table.new) }
{
    if table.ports.len() >= MOST_PORTS {
        return Err(wrong_name(Wrong::TooManyRows));
    }
    let name = row_name(head.width, head.name, row)?;
    if !add_name(alloc, &mut table.names, name)? {
        return Err(wrong_name(Wrong::NameTwice));
    }
    let port = port_row(alloc, head, row)?;
    table.ports.push(port)?;
    Ok(())
}

// The ports of rows under a head line.
fn ports_under(alloc: Global, head: &PortHead, rows: &[TableRow]) -> Result<PortTable, LineError>
    ensures { TellsTable spec.ports_view result
        (after_rows (spec.with_port head.now) spec.no_ports (map row_view rows.now)) }
{
    let mut table = no_ports(alloc);
    for row in rows {
        match add_port(alloc, head, &mut table, &row.cells) {
            Ok(()) => {}
            Err(error) => return Err(line_error(row.line, error)),
        }
    }
    Ok(table)
}

/// The ports of the rows of a table, or its first fault.
#[tactic(auto, unfolding(crate::specs::Tables::table_of))]
pub fn read_ports(alloc: Global, rows: &[TableRow]) -> Result<PortTable, LineError>
    ensures { TellsTable spec.ports_view result (spec.ports_of (map row_view rows.now)) }
{
    let [first, rest @ ..] = rows else {
        return Err(no_head());
    };
    match port_head(&first.cells) {
        Ok(head) => ports_under(alloc, &head, rest),
        Err(fault) => Err(line_error(first.line, RowError::Cell(fault))),
    }
}
