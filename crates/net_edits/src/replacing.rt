//! Networks with one server or one flow replaced.

ghost use Rattle.std.specs.Prelude.{◌≡◌, ◌<◌, length, IfOk, slice_set};
ghost use Rattle.std.specs.Option.{option_map};
ghost use Rattle.net_model.specs.Accepted.{IsAccepted};
ghost use Rattle.net_model.specs.Views.{server_of, flow_of};
ghost use Rattle.net_edits.specs.Changed as spec;

use net_model::{Flow, Network, Server};
use std::alloc::AllocError;

// Puts an item at a place, if there is one.
fn set_at<T: Drop>(items: &mut Vec<T>, place: usize, item: T)
    ensures { items.new.items ≡ slice_set items.old.items place item }
{
    if place < items.len() {
        items[place] = item;
    }
}

/// The network with a server at a number. It takes no memory.
pub fn with_server(net: Network, number: u32, server: Server) -> Network
    requires { IsAccepted (spec.put_server net number (server_of server)) }
    ensures { result ≡ spec.put_server net number (server_of server) }
{
    let version = net.version();
    let (mut servers, flows) = net.into_parts();
    set_at(&mut servers, number as usize, server);
    Network::of_version(version, servers, flows)
}

/// The network with a flow, or none, at a number. It takes no memory.
pub fn with_flow(net: Network, number: u32, flow: Option<Flow>) -> Network
    requires { IsAccepted (spec.put_flow net number (option_map flow_of flow)) }
    ensures { result ≡ spec.put_flow net number (option_map flow_of flow) }
{
    let version = net.version();
    let (servers, mut flows) = net.into_parts();
    set_at(&mut flows, number as usize, flow);
    Network::of_version(version, servers, flows)
}

/// The network with one flow more.
pub(crate) fn with_more(net: Network, flow: Flow) -> Result<Network, AllocError>
    requires { IsAccepted (spec.with_more (flow_of flow) net) }
    ensures { IfOk result (λ n. n ≡ spec.with_more (flow_of flow) net) }
{
    let version = net.version();
    let (servers, mut flows) = net.into_parts();
    flows.push(Some(flow))?;
    Ok(Network::of_version(version, servers, flows))
}
