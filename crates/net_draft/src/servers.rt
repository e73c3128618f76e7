//! Servers.

ghost use Rattle.std.specs.Prelude.{◌≡◌, ◌≢◌, ◌≤◌, ◌++◌, ◌∷◌, [], map, codes, IfOk, All, AllPairs, length};
ghost use Rattle.toml.specs.View.{view};
ghost use Rattle.net_draft.specs.Faults.{Gives, nth};
ghost use Rattle.net_draft.specs.ListViews.{list_texts};
ghost use Rattle.net_draft.specs.NameTexts.{texts};
ghost use Rattle.net_draft.specs.Tables.{each, server_text_at, server_with};
ghost use Rattle.net_draft.specs.Kept.{IsServerDraft};
ghost use Rattle.net_draft.specs.Views.{server_text};

use crate::disciplines::discipline_at;
use crate::fault::DraftFault;
use crate::keys::{nonnegative_number, only, positive_number, table_at};
use crate::names::new_name;
use crate::places::nth;
use crate::server_draft::ServerDraft;
use crate::server_list::ServerList;
use crate::services::service_of;
use indexmap::IndexSet;
use std::alloc::Global;
use toml::Value;

/// The server of an entry, whose name goes last among the names of those before it.
#[tactic(auto, unfolding(crate::specs::Tables::server_with))]
fn server_of(
    alloc: Global,
    names: &mut IndexSet<String>,
    place: &str,
    value: &Value,
) -> Result<ServerDraft, DraftFault>
    ensures value { Gives server_text result (server_with (texts names.old) place.now (view value.now)) }
    ensures kept { IfOk result IsServerDraft }
    ensures fresh { IfOk result (λ s. All (λ t. t ≢ (server_text s).name) (texts names.old)) }
    ensures grown { IfOk result (λ s. texts names.new ≡ texts names.old ++ (server_text s).name ∷ []) }
{
    let table = table_at(alloc, place, value)?;
    let known = [
        "name",
        "rate",
        "service",
        "link",
        "discipline",
        "queues",
        "quanta",
    ];
    only(alloc, table, place, &known)?;
    let name = new_name(alloc, names, table, place)?;
    let rate = positive_number(alloc, table, place, "rate")?;
    let service = service_of(alloc, rate, table, place)?;
    let link = nonnegative_number(alloc, table, place, "link")?;
    let discipline = discipline_at(alloc, table, place)?;
    Ok(ServerDraft {
        name: String::from_str(alloc, name)?,
        rate,
        service,
        link,
        discipline,
    })
}

/// The server of the entry of this number.
fn server_in(
    alloc: Global,
    names: &mut IndexSet<String>,
    number: usize,
    value: &Value,
) -> Result<ServerDraft, DraftFault>
    ensures value { Gives server_text result
        (server_with (texts names.old) (nth (codes "server") number) (view value.now)) }
    ensures kept { IfOk result IsServerDraft }
    ensures fresh { IfOk result (λ s. All (λ t. t ≢ (server_text s).name) (texts names.old)) }
    ensures grown { IfOk result (λ s. texts names.new ≡ texts names.old ++ (server_text s).name ∷ []) }
{
    let place = nth(alloc, "server", number)?;
    server_of(alloc, names, place.as_str(), value)
}

/// The servers of these entries.
pub(crate) fn servers_of(alloc: Global, entries: &[Value]) -> Result<ServerList, DraftFault>
    requires { length entries.now ≤ 64 }
    ensures value { Gives list_texts result (each server_text_at (codes "server") [] (map view entries.now)) }
    ensures kept { IfOk result (λ l. All IsServerDraft l.servers.items) }
    ensures names { IfOk result (λ l. AllPairs (λ s t. s.name ≢ t.name) (list_texts l)) }
{
    let mut servers = Vec::new(alloc);
    let mut names = IndexSet::new(alloc);
    for entry in entries {
        let server = server_in(alloc, &mut names, servers.len(), entry)?;
        servers.push(server)?;
    }
    Ok(ServerList { servers, names })
}
