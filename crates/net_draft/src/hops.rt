//! Entries of paths.

ghost use Rattle.std.specs.Prelude.{◌≡◌, ◌≢◌, ◌-◌, ◌^◌, ◌<◌, ◌≤◌, min, true, [], map, codes, length};
ghost use Rattle.std.specs.Prelude.{IfOk, All, AllPairs, Some, slice_get, nat_eq};
ghost use Rattle.std.specs.List.{list_any};
ghost use Rattle.toml.specs.View.{view, table_view};
ghost use Rattle.net_draft.specs.Faults.{Gives, nth, viewed};
ghost use Rattle.net_draft.specs.Hops.{hop_parts, hop_text, hop_in, named_from};
ghost use Rattle.net_draft.specs.HopViews.{hop_view};
ghost use Rattle.net_draft.specs.ListViews.{list_texts};
ghost use Rattle.net_draft.specs.Tables.{each, hop_at, path_of};
ghost use Rattle.net_draft.specs.Texts.{IsHopOf};
ghost use Rattle.net_draft.specs.Views.{server_text};

use crate::fault::DraftFault;
use crate::hop::Hop;
use crate::keys::required_list;
use crate::limits::MOST_HOPS;
use crate::places::{fault_nth, under};
use crate::server_draft::ServerDraft;
use crate::server_list::ServerList;
use crate::values::text_in;
use fraction128::read_digits;
use net_model::{NetKind, find_colon, is_name};
use std::alloc::Global;
use toml::{Table, Value};

/// A path entry as it is written. A number of a queue above 2^32 - 1 is 2^32 - 1.
#[derive(Clone, Copy)]
pub(crate) struct WrittenHop<'a> {
    name: &'a str,
    queue: u32,
}

#[tactic(auto, unfolding(rational::specs::Gauge::cap))]
fn queue_number(n: u128) -> u32
    ensures { result ≡ min n (2 ^ 32 - 1) }
{
    if n < u32::MAX as u128 {
        n as u32
    } else {
        u32::MAX
    }
}

fn hop_of_parts<'a>(name: &'a str, digits: &[u8]) -> Result<WrittenHop<'a>, NetKind>
    ensures { viewed hop_view result ≡ hop_parts name.now digits.now }
{
    if !is_name(name) {
        return Err(NetKind::M5);
    }
    match read_digits(digits) {
        Some(n) => Ok(WrittenHop {
            name,
            queue: queue_number(n),
        }),
        None => Err(NetKind::M5),
    }
}

fn written_hop(text: &str) -> Result<WrittenHop<'_>, NetKind>
    ensures { viewed hop_view result ≡ hop_text text.now }
{
    let bytes = text.as_bytes();
    match find_colon(bytes) {
        Some(at) => hop_of_parts(&text[..at], &bytes[at + 1..]),
        None => hop_of_parts(text, b"0"),
    }
}

/// The server of a name, and its number.
fn server_named<'a>(
    servers: &'a ServerList,
    name: &str,
) -> Result<(usize, &'a ServerDraft), NetKind>
    ensures value { viewed (λ f. (f.0, server_text f.1.now)) result ≡ named_from 0 name.now (list_texts servers.now) }
    ensures within { IfOk result (λ f. f.0 < 64) }
    ensures stands { IfOk result (λ f. slice_get (list_texts servers.now) f.0 ≡ Some (server_text f.1.now)) }
{
    match servers.names.get_index_of(name) {
        Some(number) => Ok((number, &servers.servers[number])),
        None => Err(NetKind::M8),
    }
}

fn passes_server(hops: &[Hop], server: usize) -> bool
    ensures { result ≡ list_any (λ h. nat_eq h.server server) hops.now }
{
    for hop in hops {
        if hop.server as usize == server {
            return true;
        }
    }
    false
}

#[tactic(auto, unfolding(crate::specs::Hops::hop_in))]
fn hop_in(servers: &ServerList, before: &[Hop], value: &Value) -> Result<Hop, NetKind>
    ensures value { result ≡ hop_in (list_texts servers.now) before.now (view value.now) }
    ensures range { IfOk result (IsHopOf (list_texts servers.now)) }
    ensures fresh { IfOk result (λ h. All (λ b. b.server ≢ h.server) before.now) }
{
    let text = text_in(value)?;
    let written = written_hop(text)?;
    let (number, server) = server_named(servers, written.name)?;
    if written.queue as usize >= server.discipline.queue_count() {
        return Err(NetKind::M6);
    }
    if passes_server(before, number) {
        return Err(NetKind::M10);
    }
    Ok(Hop {
        server: number as u32,
        queue: written.queue,
    })
}

/// The hop that an entry of the array at a place is, the one after these.
fn hop_at(
    alloc: Global,
    servers: &ServerList,
    before: &[Hop],
    place: &str,
    value: &Value,
) -> Result<Hop, DraftFault>
    ensures value { Gives (λ h. h) result
        (hop_at (list_texts servers.now) before.now (nth place.now (length before.now)) (view value.now)) }
    ensures range { IfOk result (IsHopOf (list_texts servers.now)) }
    ensures fresh { IfOk result (λ h. All (λ b. b.server ≢ h.server) before.now) }
{
    match hop_in(servers, before, value) {
        Ok(hop) => Ok(hop),
        Err(kind) => Err(fault_nth(alloc, kind, place, before.len())),
    }
}

fn each_hop(
    alloc: Global,
    servers: &ServerList,
    place: &str,
    entries: &[Value],
) -> Result<Vec<Hop>, DraftFault>
    ensures value { Gives (λ v. v.items) result
        (each (hop_at (list_texts servers.now)) place.now [] (map view entries.now)) }
    ensures count { IfOk result (λ v. length v.items ≡ length entries.now) }
    ensures range { IfOk result (λ v. All (IsHopOf (list_texts servers.now)) v.items) }
    ensures once { IfOk result (λ v. AllPairs (λ a b. a.server ≢ b.server) v.items) }
{
    let mut hops = Vec::new(alloc);
    for entry in entries {
        let hop = hop_at(alloc, servers, &hops, place, entry)?;
        hops.push(hop)?;
    }
    Ok(hops)
}

/// The path of the flow whose table stands at a place.
#[tactic(auto, unfolding(crate::specs::Tables::path_of))]
pub(crate) fn path_of(
    alloc: Global,
    servers: &ServerList,
    table: &Table,
    place: &str,
) -> Result<Vec<Hop>, DraftFault>
    ensures value { Gives (λ v. v.items) result
        (path_of (list_texts servers.now) place.now (table_view table.now)) }
    ensures some { IfOk result (λ v. 1 ≤ length v.items) }
    ensures few { IfOk result (λ v. length v.items ≤ 16) }
    ensures range { IfOk result (λ v. All (IsHopOf (list_texts servers.now)) v.items) }
    ensures once { IfOk result (λ v. AllPairs (λ a b. a.server ≢ b.server) v.items) }
{
    let entries = required_list(alloc, table, place, "path", 1, MOST_HOPS)?;
    let here = under(alloc, place, "path")?;
    each_hop(alloc, servers, here.as_str(), entries)
}
