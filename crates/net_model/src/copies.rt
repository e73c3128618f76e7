//! Copies of servers and flows.

ghost use Rattle.std.specs.Prelude.{◌≡◌, IfOk};
ghost use Rattle.std.specs.Option.{option_map};
ghost use Rattle.net_model.specs.Views.{flow_of, flows_of, servers_of};

use crate::flow::Flow;
use crate::server::Server;
use std::alloc::{AllocError, Global};

pub(crate) fn copied_servers(alloc: Global, servers: &[Server]) -> Result<Vec<Server>, AllocError>
    ensures { IfOk result (λ v. servers_of v.items ≡ servers_of servers.now) }
{
    let mut copies = Vec::with_capacity(alloc, servers.len())?;
    for server in servers {
        copies.push(server.copy()?)?;
    }
    Ok(copies)
}

fn copied_flow(flow: &Option<Flow>) -> Result<Option<Flow>, AllocError>
    ensures { IfOk result (λ f. option_map flow_of f ≡ option_map flow_of flow.now) }
{
    match flow {
        None => Ok(None),
        Some(f) => Ok(Some(f.copy()?)),
    }
}

pub(crate) fn copied_flows(
    alloc: Global,
    flows: &[Option<Flow>],
) -> Result<Vec<Option<Flow>>, AllocError>
    ensures { IfOk result (λ v. flows_of v.items ≡ flows_of flows.now) }
{
    let mut copies = Vec::with_capacity(alloc, flows.len())?;
    for flow in flows {
        copies.push(copied_flow(flow)?)?;
    }
    Ok(copies)
}
