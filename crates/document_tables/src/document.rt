//! Documents.

ghost use Rattle.std.specs.Prelude.{◌≡◌, ◌≤◌, ◌<◌, List, All, map, length, IfOk};
ghost use Rattle.csv_rows.specs.Coming.{Stands, rows_of};
ghost use Rattle.tree_network.specs.Networks.{IsNetwork};
ghost use Rattle.document_tables.specs.Documents as spec;
ghost use Rattle.document_tables.specs.Grids as grids;
ghost use Rattle.document_tables.specs.Links.{BranchText, branches_of, links_view};
ghost use Rattle.document_tables.specs.LinkTrees.{AreTrees, AreTreesOf};
ghost use Rattle.document_tables.specs.Ports.{ports_view};
ghost use Rattle.document_tables.specs.Ranges.{IsPortText, AreLinkKeys};
ghost use Rattle.document_tables.specs.Short.{HaveShortNodes};
ghost use Rattle.document_tables.specs.Tables.{line_row, row_view};
ghost use Rattle.document_tables.specs.Ways.{AreBranchesOf};
ghost use Rattle.document_tables.specs.declared.fault.DocumentError.TheVariants as errors;

use crate::fault::{DocumentError, LineError, TableFile};
use crate::grid::{links_on_grid, ports_on_grid};
use crate::links::{Branch, LinkKeys, LinkTable, read_links};
use crate::names::Names;
use crate::ports::{PortTable, read_ports};
use crate::trees::Tree;
use csv_rows::{TableRow, TableRows};
use std::alloc::{AllocError, Global};
use table_cells::Amount;
use tree_network::Network;

/// The link of a branch, the place of its last port in the nodes of the link, and its deadline in microseconds, where
/// it has one.
#[derive(Clone, Copy)]
pub struct BranchEnd {
    pub link: usize,
    pub node: usize,
    pub deadline: Option<Amount>,
}

/// What a document means: its network, the names of the ports and links by their numbers, and its branches in the order
/// of the rows. The names are let go last, as in `Names`.
#[derive(Drop)]
pub struct Document {
    pub network: Network,
    pub branches: Vec<BranchEnd>,
    pub port_names: Names,
    pub link_names: Names,
}

// The fault of a table.
fn in_file(file: TableFile, error: LineError) -> DocumentError
    ensures { result ≡ spec.error_in file error }
{
    match error {
        LineError::Fault(fault) => DocumentError::Fault(file, fault),
        LineError::NoMemory => DocumentError::NoMemory,
    }
}

// Where a branch ends.
fn branch_end(branch: Branch) -> BranchEnd
    ensures { result ≡ record { link = branch.link; node = branch.node; deadline = branch.deadline } }
{
    BranchEnd {
        link: branch.link,
        node: branch.node,
        deadline: branch.deadline,
    }
}

// Where the branches end.
fn branch_ends(alloc: Global, table: &LinkTable) -> Result<Vec<BranchEnd>, AllocError>
    requires trees { AreTrees table.now }
    ensures { IfOk result (λ ends. map spec.end_view ends.items
        ≡ map (grids.branch_on_grid (branches_of table.now)) (branches_of table.now)) }
{
    let mut ends = Vec::with_capacity(alloc, table.branches.len())?;
    for place in 0..table.branches.len() {
        ends.push(branch_end(table.branches[place]))?;
    }
    Ok(ends)
}

// The network of the two tables that are read.
fn network_of(
    alloc: Global,
    ports: &PortTable,
    overhead: u64,
    keys: &[LinkKeys],
    trees: &mut Vec<Tree>,
) -> Result<Network, AllocError>
    requires overhead { overhead ≤ 1048576 }
    requires ports { All IsPortText (ports_view ports.now).ports }
    requires keys { All AreLinkKeys keys.now }
    requires count { length trees.old.items ≡ length keys.now }
    requires short { HaveShortNodes (ports_view ports.now).ports keys.now trees.old.items }
    ensures ports { IfOk result (λ n. map grids.grid_port n.ports.items
        ≡ map grids.port_on_grid (ports_view ports.now).ports) }
    ensures links { (branches : List BranchText) → AreTreesOf branches trees.old.items → IfOk result (λ n.
        map grids.grid_link n.links.items ≡ grids.links_from (ports_view ports.now).ports overhead branches 0 keys.now) }
{
    let links = links_on_grid(alloc, ports, overhead, keys, trees)?;
    let ports = ports_on_grid(alloc, &ports.ports)?;
    Ok(Network { ports, links })
}

// The document of the two tables that are read.
fn document_with(
    alloc: Global,
    ports: PortTable,
    overhead: u64,
    table: LinkTable,
) -> Result<Document, AllocError>
    requires overhead { overhead ≤ 1048576 }
    requires ports { All IsPortText (ports_view ports).ports }
    requires keys { All AreLinkKeys table.keys.items }
    requires trees { AreTrees table }
    requires short { HaveShortNodes (ports_view ports).ports table.keys.items table.trees.items }
    ensures { IfOk result (λ d. spec.document_view d
        ≡ spec.document_with overhead (ports_view ports) (links_view table)) }
{
    let branches = branch_ends(alloc, &table)?;
    let mut trees = table.trees;
    let network = network_of(alloc, &ports, overhead, &table.keys, &mut trees)?;
    Ok(Document {
        network,
        branches,
        port_names: ports.names,
        link_names: table.names,
    })
}

/// The document of the rows of two tables, or its first fault: by rows, those of ports before those of links, and in a
/// row by columns. A frame has `overhead` bytes on the wire beside its own, at most 2^20. One row of links is kept at a
/// time.
#[tactic(auto, unfolding(crate::specs::Documents::document_of))]
pub fn read_document(
    alloc: Global,
    port_rows: &[TableRow],
    link_rows: &mut TableRows,
    overhead: u64,
) -> Result<Document, DocumentError>
    requires overhead { overhead ≤ 1048576 }
    requires stands { Stands link_rows.old }
    ensures value { spec.TellsDocument result
        (spec.document_of overhead (map row_view port_rows.now) (map line_row (rows_of link_rows.old))) }
    ensures network { IfOk result (λ d. IsNetwork d.network) }
    ensures branches { IfOk result (λ d. All (spec.IsBranchOf d.network) d.branches.items) }
    ensures names { IfOk result spec.HasNames }
    ensures ways { IfOk result (λ d. AreBranchesOf overhead (map line_row (rows_of link_rows.old)) (spec.document_view d)) }
{
    let ports = match read_ports(alloc, port_rows) {
        Ok(ports) => ports,
        Err(error) => return Err(in_file(TableFile::Ports, error)),
    };
    let table = match read_links(alloc, &ports, overhead, link_rows) {
        Ok(table) => table,
        Err(error) => return Err(in_file(TableFile::Links, error)),
    };
    match document_with(alloc, ports, overhead, table) {
        Ok(document) => Ok(document),
        Err(_) => Err(DocumentError::NoMemory),
    }
}
