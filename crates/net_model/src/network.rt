//! Networks.

use crate::copies::{copied_flows, copied_servers};
use crate::flow::Flow;
use crate::names::{place_of_flow, place_of_server};
use crate::server::Server;
use std::alloc::AllocError;
use std::marker::Model;

/// Servers and flows. A flow's number is its place; a dropped flow leaves its place empty. What a network keeps is in
/// its type: limits, names that differ, paths over its servers and queues, and curves that are those of their kinds.
#[derive(Drop)]
pub struct Network {
    version: u32,
    servers: Vec<Server>,
    flows: Vec<Option<Flow>>,
}

impl Model for Network {
    ghost use Rattle.net_model.specs.Networks.{Net};

    ghost Value = { Net };

    ghost use Rattle.net_model.specs.Views.{net_of};
    ghost use Rattle.net_model.specs.Accepted.{IsAccepted};

    ghost view = { λ a. net_of a.version a.servers.items a.flows.items };

    ghost invariant = { λ a. IsAccepted (net_of a.version a.servers.items a.flows.items) };
}

impl Network {
    ghost use Rattle.std.specs.Prelude.{◌≡◌, IfOk};
    ghost use Rattle.net_model.specs.Accepted.{IsAccepted};
    ghost use Rattle.net_model.specs.Names.{FindsServer, FindsFlow};
    ghost use Rattle.net_model.specs.Views.{net_of, flows_of, servers_of};

    /// The network of servers and flows that may stand together, in version 1.
    pub fn new(servers: Vec<Server>, flows: Vec<Option<Flow>>) -> Network
        requires { IsAccepted (net_of 1 servers.items flows.items) }
        ensures { result ≡ net_of 1 servers.items flows.items }
    {
        Network {
            version: 1,
            servers,
            flows,
        }
    }

    /// The same in a version of its own: 1, or 2, in which servers have a pace.
    pub fn of_version(version: u32, servers: Vec<Server>, flows: Vec<Option<Flow>>) -> Network
        requires { IsAccepted (net_of version servers.items flows.items) }
        ensures { result ≡ net_of version servers.items flows.items }
    {
        Network {
            version,
            servers,
            flows,
        }
    }

    /// What every network keeps: what its contract says. It does nothing.
    pub fn keeps(&self)
        ensures { IsAccepted self.now }
    {
        let _version = self.version;
    }

    /// The servers, by their numbers.
    pub fn servers(&self) -> &[Server]
        ensures servers { servers_of result.now ≡ self.now.servers }
        ensures kept { IsAccepted self.now }
    {
        &self.servers
    }

    /// The flows, by their numbers.
    pub fn flows(&self) -> &[Option<Flow>]
        ensures flows { flows_of result.now ≡ self.now.flows }
        ensures kept { IsAccepted self.now }
    {
        &self.flows
    }

    /// The version of its file.
    pub fn version(&self) -> u32
        ensures version { result ≡ self.now.version }
        ensures kept { IsAccepted self.now }
    {
        self.version
    }

    /// The servers and the flows of a network, by their numbers, each to keep.
    pub fn into_parts(self) -> (Vec<Server>, Vec<Option<Flow>>)
        ensures servers { servers_of result.0.items ≡ self.servers }
        ensures flows { flows_of result.1.items ≡ self.flows }
        ensures kept { IsAccepted self }
    {
        (self.servers, self.flows)
    }

    /// The same network again.
    pub fn copy(&self) -> Result<Network, AllocError>
        ensures { IfOk result (λ n. n ≡ self.now) }
    {
        let alloc = *self.servers.allocator();
        Ok(Network {
            version: self.version,
            servers: copied_servers(alloc, &self.servers)?,
            flows: copied_flows(alloc, &self.flows)?,
        })
    }

    /// The number of the server with a name; none exactly where no server has it.
    pub fn server_named(&self, name: &str) -> Option<u32>
        ensures { FindsServer self.now.servers name.now result }
    {
        place_of_server(&self.servers, name)
    }

    /// The number of the live flow with a name; none exactly where no live flow has it.
    pub fn flow_named(&self, name: &str) -> Option<u32>
        ensures { FindsFlow self.now.flows name.now result }
    {
        place_of_flow(&self.flows, name)
    }
}
