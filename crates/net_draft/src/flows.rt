//! Flows.

ghost use Rattle.std.specs.Prelude.{◌≡◌, ◌≢◌, ◌++◌, ◌∷◌, [], map, codes, IfOk, All, AllPairs, length};
ghost use Rattle.toml.specs.View.{view};
ghost use Rattle.net_draft.specs.Faults.{Gives, nth};
ghost use Rattle.net_draft.specs.ListViews.{list_texts};
ghost use Rattle.net_draft.specs.NameTexts.{texts};
ghost use Rattle.net_draft.specs.Tables.{each, flow_at, flow_with};
ghost use Rattle.net_draft.specs.Kept.{IsFlowDraft};
ghost use Rattle.net_draft.specs.Views.{flow_text};

use crate::arrivals::arrival_of;
use crate::fault::DraftFault;
use crate::flow_draft::FlowDraft;
use crate::hops::path_of;
use crate::keys::{only, required_whole, table_at};
use crate::limits::LONGEST;
use crate::names::new_name;
use crate::places::nth;
use crate::server_list::ServerList;
use indexmap::IndexSet;
use std::alloc::Global;
use toml::Value;

/// The flow of an entry, whose name goes last among the names of those before it.
#[tactic(auto, unfolding(crate::specs::Tables::flow_with))]
fn flow_of(
    alloc: Global,
    servers: &ServerList,
    names: &mut IndexSet<String>,
    place: &str,
    value: &Value,
) -> Result<FlowDraft, DraftFault>
    ensures value { Gives flow_text result
        (flow_with (list_texts servers.now) (texts names.old) place.now (view value.now)) }
    ensures fresh { IfOk result (λ f. All (λ t. t ≢ (flow_text f).name) (texts names.old)) }
    ensures grown { IfOk result (λ f. texts names.new ≡ texts names.old ++ (flow_text f).name ∷ []) }
    ensures kept { IfOk result (IsFlowDraft (list_texts servers.now)) }
{
    let table = table_at(alloc, place, value)?;
    only(alloc, table, place, &["name", "packet", "arrival", "path"])?;
    let name = new_name(alloc, names, table, place)?;
    let packet = required_whole(alloc, table, place, "packet", 1, LONGEST)?;
    let (arrival, closes) = arrival_of(alloc, packet, table, place)?;
    let path = path_of(alloc, servers, table, place)?;
    Ok(FlowDraft {
        name: String::from_str(alloc, name)?,
        packet,
        arrival,
        closes,
        path,
    })
}

/// The flow of the entry of this number.
fn flow_in(
    alloc: Global,
    servers: &ServerList,
    names: &mut IndexSet<String>,
    number: usize,
    value: &Value,
) -> Result<FlowDraft, DraftFault>
    ensures value { Gives flow_text result
        (flow_with (list_texts servers.now) (texts names.old) (nth (codes "flow") number) (view value.now)) }
    ensures fresh { IfOk result (λ f. All (λ t. t ≢ (flow_text f).name) (texts names.old)) }
    ensures grown { IfOk result (λ f. texts names.new ≡ texts names.old ++ (flow_text f).name ∷ []) }
    ensures kept { IfOk result (IsFlowDraft (list_texts servers.now)) }
{
    let place = nth(alloc, "flow", number)?;
    flow_of(alloc, servers, names, place.as_str(), value)
}

/// The flows of these entries.
pub(crate) fn flows_of(
    alloc: Global,
    servers: &ServerList,
    entries: &[Value],
) -> Result<Vec<FlowDraft>, DraftFault>
    ensures value { Gives (λ v. map flow_text v.items) result
        (each (flow_at (list_texts servers.now)) (codes "flow") [] (map view entries.now)) }
    ensures count { IfOk result (λ v. length v.items ≡ length entries.now) }
    ensures names { IfOk result (λ v. AllPairs (λ f g. f.name ≢ g.name) (map flow_text v.items)) }
    ensures kept { IfOk result (λ v. All (IsFlowDraft (list_texts servers.now)) v.items) }
{
    let mut flows = Vec::new(alloc);
    let mut names = IndexSet::new(alloc);
    for entry in entries {
        let flow = flow_in(alloc, servers, &mut names, flows.len(), entry)?;
        flows.push(flow)?;
    }
    Ok(flows)
}
