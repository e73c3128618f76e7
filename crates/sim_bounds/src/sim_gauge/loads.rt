//! The bits that pass a server.

ghost use Rattle.std.specs.Prelude.{◌≡◌, ℕ, List, Some, length, Contains};
ghost use Rattle.net_model.specs.NetRoutes.{hops_along};
ghost use Rattle.net_model.specs.Networks.{NetFlow};
ghost use Rattle.net_model.specs.Views.{flows_of};
ghost use Rattle.sim_bounds.specs.Horizons.{path_bits, load};
ghost use Rattle.net_model.specs.stated_runs.FromTraces.{setup_of};
ghost use Rattle.sim_bounds.specs.sim_gauge.Flows.{hops_of};

use net_model::{Flow, Network, Trace, TracePacket};

/// The bits where the path has the server, and else 0.
fn bits_on(path: &[u32], server: u32, bits: u32) -> u32
    ensures { (queues : List ℕ) → length queues ≡ length path.now
        → result ≡ path_bits server (hops_along path.now queues) bits }
{
    for at in path {
        if *at == server {
            return bits;
        }
    }
    0
}

/// The bits of a packet where its flow passes the server, and else 0.
fn passing_bits(flows: &[Option<Flow>], packet: &TracePacket, server: u32) -> u32
    requires { (f : NetFlow) → Contains (flows_of flows.now) (Some f) → length f.queues ≡ length f.path }
    ensures { result ≡ path_bits server (hops_of (flows_of flows.now) packet.now.flow) packet.now.bits }
{
    let place = packet.flow as usize;
    if place >= flows.len() {
        return 0;
    }
    match &flows[place] {
        Some(flow) => bits_on(&flow.path, server, packet.bits),
        None => 0,
    }
}

/// The bits of all packets of a trace that pass a server.
pub fn load(net: &Network, trace: &Trace, server: u32) -> u64
    ensures { result ≡ load (setup_of net.now trace.now) server }
{
    let flows = net.flows();
    let mut bits = 0;
    for packet in trace.packets() {
        bits += passing_bits(flows, packet, server) as u64;
    }
    bits
}
