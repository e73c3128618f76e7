//! What the curves of a network keep.

ghost use Rattle.std.specs.Prelude.{◌<◌, ℕ, IsTrue, length};
ghost use Rattle.net_cells.specs.Numbered.{is_live};
ghost use Rattle.run_watch.specs.first_breaches.Firsts.{HasService};
ghost use Rattle.command_replies.specs.run_findings.Curves.{HasArrival};
ghost use Rattle.run_watch.specs.simulated_sizes.Laws.{AreCurves};

use net_cells::{live_flow, server};
use net_model::Network;

// What the service curve of a server keeps; it does nothing.
fn keeps_service(net: &Network, number: u32)
    ensures { number < length net.now.servers → HasService net.now number }
{
    if let Some(found) = server(net, number) {
        found.service.keeps();
    }
}

// What the arrival curve of a live flow keeps; it does nothing.
fn keeps_arrival(net: &Network, number: u32)
    ensures { IsTrue (is_live net.now number) → HasArrival net.now number }
{
    if let Some(found) = live_flow(net, number) {
        found.arrival.keeps();
    }
}

fn keeps_services(net: &Network)
    ensures { (s : ℕ) → s < length net.now.servers → HasService net.now s }
{
    let servers = net.servers();
    let count = servers.len() as u32;
    for number in 0..count {
        keeps_service(net, number);
    }
}

fn keeps_arrivals(net: &Network)
    ensures { (flow : ℕ) → IsTrue (is_live net.now flow) → HasArrival net.now flow }
{
    let flows = net.flows();
    let count = flows.len() as u32;
    for number in 0..count {
        keeps_arrival(net, number);
    }
}

/// What every network's curves keep: what its contract says. It looks at each curve and does nothing else.
pub fn keeps_curves(net: &Network)
    ensures { AreCurves net.now }
{
    keeps_services(net);
    keeps_arrivals(net);
}
