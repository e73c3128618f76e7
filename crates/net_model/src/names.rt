//! Servers and flows by their names.

ghost use Rattle.std.specs.Prelude.{◌≡◌, ◌↔◌, ◌≤◌, length, IsTrue};
ghost use Rattle.std.specs.List.{list_all, position};
ghost use Rattle.std.specs.Option.{option_map};
ghost use Rattle.net_model.specs.Names as naming;
ghost use Rattle.net_model.specs.Names.{FindsServer, FindsFlow, HasName};
ghost use Rattle.net_model.specs.Views.{flow_of, flows_of, servers_of};

use crate::flow::Flow;
use crate::server::Server;

const MOST_LETTERS: usize = 32;

fn is_name_byte(byte: u8) -> bool
    ensures { result ≡ naming.is_name_byte byte }
{
    matches!(byte, b'a'..=b'z' | b'A'..=b'Z' | b'0'..=b'9' | b'_' | b'-')
}

/// Whether all bytes are letters, digits, `_` and `-`.
pub fn are_name_bytes(bytes: &[u8]) -> bool
    ensures { result ≡ list_all naming.is_name_byte bytes.now }
{
    bytes.iter().all(|byte| is_name_byte(*byte))
}

/// Where the first colon stands.
pub fn find_colon(bytes: &[u8]) -> Option<usize>
    ensures { result ≡ position naming.is_colon bytes.now }
{
    bytes.iter().position(|b| *b == b':')
}

/// Whether a text is a name: 1 to 32 letters, digits, `_` and `-`.
pub fn is_name(text: &str) -> bool
    ensures { result ≡ naming.is_name text.now }
{
    if text.is_empty() {
        return false;
    }
    if text.len() > MOST_LETTERS {
        return false;
    }
    are_name_bytes(text.as_bytes())
}

pub(crate) fn place_of_server(servers: &[Server], name: &str) -> Option<u32>
    requires { length servers.now ≤ 64 }
    ensures { FindsServer (servers_of servers.now) name.now result }
{
    for (i, server) in servers.iter().enumerate() {
        if server.name.as_str() == name {
            return Some(i as u32);
        }
    }
    None
}

// Whether a place has a live flow with a name.
fn has_name(flow: &Option<Flow>, name: &str) -> bool
    ensures { IsTrue result ↔ HasName (option_map flow_of flow.now) name.now }
{
    match flow {
        None => false,
        Some(f) => f.name.as_str() == name,
    }
}

pub(crate) fn place_of_flow(flows: &[Option<Flow>], name: &str) -> Option<u32>
    requires { length flows.now ≤ 256 }
    ensures { FindsFlow (flows_of flows.now) name.now result }
{
    for (i, flow) in flows.iter().enumerate() {
        if has_name(flow, name) {
            return Some(i as u32);
        }
    }
    None
}
