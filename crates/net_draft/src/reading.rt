//! Files of networks.

ghost use Rattle.std.specs.Prelude.{◌≡◌, ◌≢◌, ◌≤◌, map, length, IfOk, All, AllPairs};
ghost use Rattle.toml.specs.View.{table_view};
ghost use Rattle.net_draft.specs.Faults.{Gives};
ghost use Rattle.net_draft.specs.DraftViews.{draft_text};
ghost use Rattle.net_draft.specs.Drafts.{servers_of, flows_of, root_of, draft_of};
ghost use Rattle.net_draft.specs.ListViews.{list_texts};
ghost use Rattle.net_draft.specs.Kept.{IsServerDraft, IsFlowDraft, IsDraft};
ghost use Rattle.net_draft.specs.Views.{flow_text};

use crate::draft::Draft;
use crate::fault::DraftFault;
use crate::flow_draft::FlowDraft;
use crate::flows::flows_of;
use crate::keys::{list_or_none, only, version};
use crate::limits::{MOST_FLOWS, MOST_SERVERS};
use crate::places::fault_at;
use crate::quanta::all_fit;
use crate::server_list::ServerList;
use crate::servers::servers_of;
use crate::tree::tree_of;
use net_model::NetKind;
use std::alloc::Global;
use toml::Table;

#[tactic(auto, unfolding(crate::specs::Drafts::servers_of))]
fn servers_at(alloc: Global, root: &Table) -> Result<ServerList, DraftFault>
    ensures value { Gives list_texts result (servers_of (table_view root.now)) }
    ensures kept { IfOk result (λ l. All IsServerDraft l.servers.items) }
    ensures names { IfOk result (λ l. AllPairs (λ s t. s.name ≢ t.name) (list_texts l)) }
{
    let entries = list_or_none(alloc, root, "server", MOST_SERVERS)?;
    servers_of(alloc, entries)
}

#[tactic(auto, unfolding(crate::specs::Drafts::flows_of))]
fn flows_at(alloc: Global, servers: &ServerList, root: &Table) -> Result<Vec<FlowDraft>, DraftFault>
    ensures value { Gives (λ v. map flow_text v.items) result
        (flows_of (list_texts servers.now) (table_view root.now)) }
    ensures few { IfOk result (λ v. length v.items ≤ 256) }
    ensures names { IfOk result (λ v. AllPairs (λ f g. f.name ≢ g.name) (map flow_text v.items)) }
    ensures kept { IfOk result (λ v. All (IsFlowDraft (list_texts servers.now)) v.items) }
{
    let entries = list_or_none(alloc, root, "flow", MOST_FLOWS)?;
    flows_of(alloc, servers, entries)
}

#[tactic(auto, unfolding(crate::specs::Drafts::root_of))]
fn draft_at(alloc: Global, root: &Table) -> Result<Draft, DraftFault>
    ensures value { Gives draft_text result (root_of (table_view root.now)) }
    ensures kept { IfOk result IsDraft }
{
    only(alloc, root, "", &["version", "server", "flow"])?;
    let version = version(alloc, root)?;
    let servers = servers_at(alloc, root)?;
    let flows = flows_at(alloc, &servers, root)?;
    all_fit(alloc, &servers.servers, &flows)?;
    Ok(Draft {
        version,
        servers: servers.servers,
        flows,
    })
}

/// The draft that the bytes of a file give, or its first fault in the order of the tables.
pub fn read_draft(alloc: Global, bytes: &[u8]) -> Result<Draft, DraftFault>
    ensures value { Gives draft_text result (draft_of bytes.now) }
    ensures kept { IfOk result IsDraft }
{
    match tree_of(alloc, bytes)? {
        Some(root) => draft_at(alloc, &root),
        None => Err(fault_at(alloc, NetKind::M1, "")),
    }
}
