//! Which flows pass a server.

ghost use Rattle.std.specs.Prelude.{◌≡◌, ◌≤◌, ◌++◌, length, IfOk, OnOk};
ghost use Rattle.net_cells.specs.Numbered.{stored_path};
ghost use Rattle.net_cells.specs.Visits.{visits, hops_at};

use net_model::{Flow, Network};
use std::alloc::{AllocError, Global};

/// A hop of a flow: the flow's number, and the place on its path, from 0.
#[derive(Debug, Clone, Copy, PartialEq, Eq)]
pub struct Visit {
    pub flow: u32,
    pub hop: u32,
}

// The hops of a path that are at a server.
fn push_hops(found: &mut Vec<Visit>, path: &[u32], flow: u32, server: u32) -> Result<(), AllocError>
    requires { length path.now ≤ 16 }
    ensures { OnOk result (found.new.items ≡ found.old.items ++ hops_at flow path.now server) }
{
    for hop in 0..path.len() {
        if path[hop] == server {
            found.push(Visit {
                flow,
                hop: hop as u32,
            })?;
        }
    }
    Ok(())
}

// Those of a flow, where it is live.
fn push_flow(
    found: &mut Vec<Visit>,
    flow: &Option<Flow>,
    number: u32,
    server: u32,
) -> Result<(), AllocError>
    requires { length (stored_path flow.now) ≤ 16 }
    ensures { OnOk result (found.new.items ≡ found.old.items ++ hops_at number (stored_path flow.now) server) }
{
    match flow {
        Some(flow) => push_hops(found, &flow.path, number, server),
        None => Ok(()),
    }
}

/// The hops at a server, by flow. Looks at each hop of the network once.
pub fn visits(alloc: Global, net: &Network, server: u32) -> Result<Vec<Visit>, AllocError>
    ensures { IfOk result (λ v. v.items ≡ visits net.now server) }
{
    let flows = net.flows();
    let mut found = Vec::new(alloc);
    for number in 0..flows.len() {
        push_flow(&mut found, &flows[number], number as u32, server)?;
    }
    Ok(found)
}
