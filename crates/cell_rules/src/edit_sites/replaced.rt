//! What an edit replaces, kept so that an undo can put it back.

ghost use Rattle.std.specs.Prelude.{◌≡◌, IfOk};
ghost use Rattle.net_model.specs.Accepted.{IsAccepted};
ghost use Rattle.net_model.specs.Networks.{Net};
ghost use Rattle.cell_rules.specs.declared.site.Site.TheVariants as site;
ghost use Rattle.cell_rules.specs.edit_sites.Sites.{Gives};
ghost use Rattle.cell_rules.specs.edit_sites.Replaced as spec;
ghost use Rattle.cell_rules.specs.edit_sites.Replaced.{IsReplacedAt, without_last};

use crate::edit_sites::sites::{edits_are_made_at_one_site, site_of};
use crate::site::Site;
use net_cells::server;
use net_edits::{copied_flow, with_flow, with_server};
use net_model::{Edit, Flow, Network, Server};
use std::alloc::{AllocError, Global};

/// What an edit replaced of a network, as it was.
#[derive(Drop)]
pub enum Replaced {
    /// Nothing: there was no such server.
    Nothing,
    /// The server of a number.
    Server(u32, Server),
    /// The flow of a number, or its empty place.
    Flow(u32, Option<Flow>),
    /// There was one flow less.
    Added,
}

impl Replaced {
    /// The same again.
    pub fn copy(&self) -> Result<Replaced, AllocError>
        ensures { IfOk result (λ r. (net : Net) → spec.put_back r net ≡ spec.put_back self.now net) }
    {
        match self {
            Replaced::Nothing => Ok(Replaced::Nothing),
            Replaced::Server(number, server) => Ok(Replaced::Server(*number, server.copy()?)),
            Replaced::Flow(number, flow) => Ok(Replaced::Flow(*number, copied_flow(flow)?)),
            Replaced::Added => Ok(Replaced::Added),
        }
    }
}

// ---- taken
fn server_at(net: &Network, number: u32) -> Result<Replaced, AllocError>
    ensures { IfOk result (IsReplacedAt (site.Server number) net.now) }
{
    match server(net, number) {
        Some(found) => Ok(Replaced::Server(number, found.copy()?)),
        None => Ok(Replaced::Nothing),
    }
}

fn flow_at(net: &Network, number: u32) -> Result<Replaced, AllocError>
    ensures { IfOk result (IsReplacedAt (site.Flow number) net.now) }
{
    let flows = net.flows();
    let place = number as usize;
    if place < flows.len() {
        let flow = copied_flow(&flows[place])?;
        Ok(Replaced::Flow(number, flow))
    } else {
        Ok(Replaced::Added)
    }
}

fn replaced_at(net: &Network, place: Site) -> Result<Replaced, AllocError>
    ensures { IfOk result (IsReplacedAt place net.now) }
{
    match place {
        Site::Anywhere => Ok(Replaced::Nothing),
        Site::Server(number) => server_at(net, number),
        Site::Flow(number) => flow_at(net, number),
    }
}

/// What an edit replaces: put back into the network that the edit gives, it gives the present one.
pub fn replaced_by(net: &Network, edit: &Edit) -> Result<Replaced, AllocError>
    ensures { IfOk result (λ r. (new : Net) → Gives net.now edit.now new → spec.put_back r new ≡ net.now) }
{
    edits_are_made_at_one_site();
    let place = site_of(net, edit);
    replaced_at(net, place)
}

// ---- put back
fn with_one_less(net: Network) -> Network
    requires { IsAccepted (without_last net) }
    ensures { result ≡ without_last net }
{
    let version = net.version();
    let (servers, mut flows) = net.into_parts();
    let kept = flows.len().saturating_sub(1);
    flows.truncate(kept);
    Network::of_version(version, servers, flows)
}

/// The network before an edit, from the edited one and what the edit replaced. It takes no memory.
pub fn put_back(net: Network, replaced: Replaced) -> Network
    requires { IsAccepted (spec.put_back replaced net) }
    ensures { result ≡ spec.put_back replaced net }
{
    match replaced {
        Replaced::Nothing => net,
        Replaced::Server(number, server) => with_server(net, number, server),
        Replaced::Flow(number, flow) => with_flow(net, number, flow),
        Replaced::Added => with_one_less(net),
    }
}

/// A network of nothing, in the place of one that is being put together. It takes no memory.
pub fn no_network(alloc: Global) -> Network {
    let servers = Vec::new(alloc);
    let flows = Vec::new(alloc);
    Network::of_version(1, servers, flows)
}
