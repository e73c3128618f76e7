//! Whether quanta are long enough for the packets of their queues.

ghost use Rattle.std.specs.Prelude.{◌≡◌, map};
ghost use Rattle.std.specs.List.{list_any};
ghost use Rattle.net_draft.specs.Faults.{Gives};
ghost use Rattle.net_draft.specs.Drafts.{is_hop_to, is_longer, quanta_from, quanta_of_server, quanta_fit};
ghost use Rattle.net_draft.specs.Views.{server_text, flow_text};

use crate::fault::DraftFault;
use crate::flow_draft::FlowDraft;
use crate::hop::Hop;
use crate::places::{fault_at, nth, under};
use crate::server_draft::ServerDraft;
use net_model::{Discipline, NetKind};
use std::alloc::Global;

fn has_hop(hops: &[Hop], server: usize, queue: usize) -> bool
    ensures { result ≡ list_any (is_hop_to server queue) hops.now }
{
    for hop in hops {
        if hop.server as usize == server && hop.queue as usize == queue {
            return true;
        }
    }
    false
}

fn is_longer(flow: &FlowDraft, server: usize, queue: usize, bits: u64) -> bool
    ensures { result ≡ is_longer server queue bits (flow_text flow.now) }
{
    bits < flow.packet as u64 && has_hop(&flow.path, server, queue)
}

fn some_longer(flows: &[FlowDraft], server: usize, queue: usize, bits: u64) -> bool
    ensures { result ≡ list_any (is_longer server queue bits) (map flow_text flows.now) }
{
    for flow in flows {
        if is_longer(flow, server, queue, bits) {
            return true;
        }
    }
    false
}

fn quanta_fit(
    alloc: Global,
    flows: &[FlowDraft],
    place: &str,
    server: usize,
    quanta: &[u64],
) -> Result<(), DraftFault>
    ensures { Gives (λ _. tt) result (quanta_from (map flow_text flows.now) place.now server 0 quanta.now) }
{
    for (queue, bits) in quanta.iter().enumerate() {
        if some_longer(flows, server, queue, *bits) {
            let here = nth(alloc, place, queue)?;
            return Err(fault_at(alloc, NetKind::M12, here.as_str()));
        }
    }
    Ok(())
}

#[tactic(auto, unfolding(crate::specs::Drafts::quanta_from))]
fn server_fits(
    alloc: Global,
    flows: &[FlowDraft],
    number: usize,
    server: &ServerDraft,
) -> Result<(), DraftFault>
    ensures { Gives (λ _. tt) result (quanta_of_server (map flow_text flows.now) number (server_text server.now)) }
{
    match &server.discipline {
        Discipline::Drr { quanta } => {
            let here = nth(alloc, "server", number)?;
            let place = under(alloc, here.as_str(), "quanta")?;
            quanta_fit(alloc, flows, place.as_str(), number, quanta)
        }
        _ => Ok(()),
    }
}

/// Nothing where no quantum is below the longest packet of its queue's flows, else a fault at the first that is.
pub(crate) fn all_fit(
    alloc: Global,
    servers: &[ServerDraft],
    flows: &[FlowDraft],
) -> Result<(), DraftFault>
    ensures { Gives (λ _. tt) result (quanta_fit (map flow_text flows.now) 0 (map server_text servers.now)) }
{
    for (number, server) in servers.iter().enumerate() {
        server_fits(alloc, flows, number, server)?;
    }
    Ok(())
}
