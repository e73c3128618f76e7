//! The loads of queues.

ghost use Rattle.std.specs.Prelude.{◌≡◌, ◌<◌, ◌+◌, ◌^◌, [], length, take, get_or, IfOk};
ghost use Rattle.tree_network.specs.Networks.{IsNetwork, PortIsInRange};
ghost use Rattle.tree_bounds.specs.Tables.{items_of};
ghost use Rattle.bounds_command.specs.Loads.{AreRates, at, with_more, load_of};

use arrival_lines::{link_rate, load};
use port_bounds::own_service;
use std::alloc::{AllocError, Global};
use tree_network::{Network, Port};

/// The grains of a bit.
const GRAINS: u64 = 1024;

// No rate at any queue of each port.
fn no_rates(alloc: Global, ports: &[Port]) -> Result<Vec<Vec<u128>>, AllocError>
    ensures { IfOk result (λ rates. AreRates ports.now [] (items_of rates.items)) }
{
    let mut rates = Vec::with_capacity(alloc, ports.len())?;
    for port in ports {
        rates.push(vec![in alloc; 0u128; port.discipline.queue_count()]?)?;
    }
    Ok(rates)
}

// Adds a rate at a queue of a port.
fn add_at(rates: &mut [Vec<u128>], port: usize, queue: usize, rate: u128)
    requires port { port < length rates.old }
    requires queue { queue < length (get_or (items_of rates.old) port []) }
    requires fits { at (items_of rates.old) port queue + rate < 2 ^ 128 }
    ensures { items_of rates.new ≡ with_more (items_of rates.old) port queue rate }
{
    rates[port][queue] += rate;
}

// Adds the rate of the link of this number at each queue that it passes.
fn add_link(network: &Network, rates: &mut [Vec<u128>], number: usize)
    requires network { IsNetwork network.now }
    requires inside { number < length network.now.links.items }
    requires rates { AreRates network.now.ports.items (take number network.now.links.items) (items_of rates.old) }
    ensures { AreRates network.now.ports.items (take (number + 1) network.now.links.items) (items_of rates.new) }
{
    let link = &network.links[number];
    let rate = link_rate(link.frame * GRAINS, link.gap);
    for node in &link.nodes {
        add_at(rates, node.port as usize, node.queue as usize, rate);
    }
}

/// The rates of the links at each queue of each port together, in grains a second.
pub(crate) fn rates_of(alloc: Global, network: &Network) -> Result<Vec<Vec<u128>>, AllocError>
    requires { IsNetwork network.now }
    ensures { IfOk result (λ rates. AreRates network.now.ports.items network.now.links.items (items_of rates.items)) }
{
    let mut rates = no_rates(alloc, &network.ports)?;
    for number in 0..network.links.len() {
        add_link(network, &mut rates, number);
    }
    Ok(rates)
}

/// The load of rates together at a port, in thousandths, rounded up; none where the port has no rate for them.
pub(crate) fn load_at(port: &Port, rates: u128) -> Option<u128>
    requires port { PortIsInRange port.now }
    requires small { rates < 2 ^ 100 }
    ensures { result ≡ load_of port.now rates }
{
    if rates == 0 {
        return Some(0);
    }
    let rate = own_service(port).rate;
    if rate == 0 {
        return None;
    }
    load(rates, rate)
}
