//! Where an edit changes a network.

ghost use Rattle.std.specs.Prelude.{◌≡◌};
ghost use Rattle.net_edits.specs.Lookups.{server_number, flow_number};
ghost use Rattle.cell_rules.specs.edit_sites.Sites as spec;
ghost use Rattle.cell_rules.specs.edit_sites.Sites.{EditsAreMadeAtOneSite, EditsHaveOneSite, EditsKeepOtherRules};

use crate::site::Site;
use net_model::{Edit, Network};

fn server_site(net: &Network, name: &str) -> Site
    ensures { result ≡ spec.at_server (server_number net.now name.now) }
{
    net.keeps();
    match net.server_named(name) {
        Some(number) => Site::Server(number),
        None => Site::Anywhere,
    }
}

fn flow_site(net: &Network, name: &str) -> Site
    ensures { result ≡ spec.at_flow (flow_number net.now name.now) }
{
    net.keeps();
    match net.flow_named(name) {
        Some(number) => Site::Flow(number),
        None => Site::Anywhere,
    }
}

// The number of one flow more.
fn next_site(net: &Network) -> Site
    ensures { result ≡ spec.next_site net.now }
{
    Site::Flow(net.flows().len() as u32)
}

/// The server or the flow at which an edit changes a network.
pub fn site_of(net: &Network, edit: &Edit) -> Site
    ensures { result ≡ spec.site_of net.now edit.now }
{
    match edit {
        Edit::Rate(name, _) => server_site(net, name),
        Edit::Latency(name, _) => server_site(net, name),
        Edit::Link(name, _) => server_site(net, name),
        Edit::Quantum(name, _, _) => server_site(net, name),
        Edit::Bucket(name, _, _) => flow_site(net, name),
        Edit::Stair(name, _, _) => flow_site(net, name),
        Edit::Packet(name, _) => flow_site(net, name),
        Edit::Route(name, _) => flow_site(net, name),
        Edit::Add(..) => next_site(net),
        Edit::Drop(name) => flow_site(net, name),
        Edit::Undo => Site::Anywhere,
    }
}

/// An edit changes one server or flow, or adds a flow.
pub fn edits_are_made_at_one_site()
    ensures { EditsAreMadeAtOneSite }
{}

/// An edit changes a network at one server or flow alone.
pub fn edits_have_one_site()
    ensures { EditsHaveOneSite }
{}

/// Each cell of an edited network but those of that server or flow, and of the queues that the flow passes, was one
/// before, and is made of the same.
pub fn edits_keep_other_rules()
    ensures { EditsKeepOtherRules }
{}
