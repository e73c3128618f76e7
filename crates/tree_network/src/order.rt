//! An order of the ports.

ghost use Rattle.std.specs.Prelude.{◌≡◌, ◌<◌, ◌≤◌, ◌+◌, ◌++◌, ℕ, List, All, length, IfErr, IfOk, OnOk, false, get_or, replicate};
ghost use Rattle.tree_network.specs.Networks.{IsNetwork};
ghost use Rattle.tree_network.specs.Lists.{lists_of, number_at, ports_in, AreBySource, AreByPort};
ghost use Rattle.tree_network.specs.Orders.{IsOrderOf, OrderOrRing};
ghost use Rattle.tree_network.specs.Plans.{IsPlanOf, IsFault, IsRingFault};
ghost use Rattle.tree_network.specs.Rings.{OneRing, ToldRingsAreRings};
ghost use Rattle.tree_network.specs.Spots.{spot_at};
ghost use Rattle.tree_network.specs.Turns.{AreReady, Begins, count_of, count_waiting};

use crate::fault::Fault;
use crate::lists::{by_port, by_source, ports_of};
use crate::network::Network;
use crate::ring::ring_of;
use crate::spots::{Spot, spots_in_order};
use std::alloc::{AllocError, Global};

/// How many spots of each port wait for the port before.
fn waiting_at(alloc: Global, spots: &[Spot], ports: usize) -> Result<Vec<usize>, AllocError>
    requires { (n : ℕ) → n < length spots.now → (spot_at spots.now n).port < ports }
    ensures { IfOk result (λ v. (length v.items ≡ ports) × ((s : ℕ) → s < ports → get_or v.items s 0 ≡ count_waiting spots.now (replicate ports false) s)) }
{
    let mut waiting = vec![in alloc; 0; ports]?;
    for spot in spots {
        if spot.source > 0 {
            waiting[spot.port as usize] += 1;
        }
    }
    Ok(waiting)
}

/// The ports that wait for none.
fn idle_ports(alloc: Global, waiting: &[usize]) -> Result<Vec<usize>, AllocError>
    ensures { IfOk result (λ v. AreReady waiting.now v.items) }
{
    let mut ready = Vec::new(alloc);
    for port in 0..waiting.len() {
        if waiting[port] == 0 {
            ready.push(port)?;
        }
    }
    Ok(ready)
}

/// Takes the spots off what waits, and adds each port that then waits for none: with those that are done before them, the ready
/// ones stay those that wait for none.
fn release(
    spot_ports: &[u16],
    numbers: &[u32],
    waiting: &mut Vec<usize>,
    ready: &mut Vec<usize>,
) -> Result<(), AllocError>
    requires inside { All (λ n. n < length spot_ports.now) numbers.now }
    requires ports { (n : ℕ) → n < length spot_ports.now → number_at spot_ports.now n < length waiting.old.items }
    requires waits { (s : ℕ) → s < length waiting.old.items → count_of (number_at spot_ports.now) s numbers.now ≤ get_or waiting.old.items s 0 }
    ensures count { OnOk result (length waiting.new.items ≡ length waiting.old.items) }
    ensures less { OnOk result ((s : ℕ) → s < length waiting.old.items → get_or waiting.new.items s 0 + count_of (number_at spot_ports.now) s numbers.now ≡ get_or waiting.old.items s 0) }
    ensures ready { OnOk result ((done : List ℕ) → AreReady waiting.old.items (done ++ ready.old.items) → AreReady waiting.new.items (done ++ ready.new.items)) }
    ensures more { OnOk result (Begins ready.old.items ready.new.items) }
{
    for n in numbers {
        let port = spot_ports[*n as usize] as usize;
        let left = waiting[port] - 1;
        waiting[port] = left;
        if left == 0 {
            ready.push(port)?;
        }
    }
    Ok(())
}

/// An order in which each port comes after those from which links come to it; the ring where there is none. Of the ports that
/// are ready the newest is the next: so links go on while what is known of them is near.
fn order_of(
    alloc: Global,
    spots: &[Spot],
    spot_ports: &[u16],
    ports: usize,
    sources: &[Vec<u32>],
    at: &[Vec<u32>],
) -> Result<Vec<usize>, Fault>
    requires own { spot_ports.now ≡ ports_in spots.now }
    requires sources { AreBySource spots.now (ports + 1) (lists_of sources.now) }
    requires at { AreByPort spots.now ports (ports + 1) (lists_of at.now) }
    requires ports { (n : ℕ) → n < length spots.now → (spot_at spots.now n).port < ports }
    requires from { (n : ℕ) → n < length spots.now → (spot_at spots.now n).source ≤ ports }
    ensures order { IfOk result (λ v. IsOrderOf spots.now ports v.items) }
    ensures fault { IfErr result (IsRingFault spots.now) }
{
    let mut waiting = waiting_at(alloc, spots, ports)?;
    let mut ready = idle_ports(alloc, &waiting)?;
    let mut is_done = vec![in alloc; false; ports]?;
    let mut order = Vec::with_capacity(alloc, ports)?;
    for _turn in 0..ports {
        match ready.pop() {
            None => return Err(Fault::Cycle(ring_of(alloc, spots, at, &is_done)?)),
            Some(port) => {
                is_done[port] = true;
                order.push(port)?;
                release(spot_ports, &sources[port + 1], &mut waiting, &mut ready)?;
            }
        }
    }
    Ok(order)
}

/// The spots of a network, by where their frames come from and by port, and an order of the ports.
#[derive(Drop)]
pub struct Plan {
    /// In the order of the links, and of each link's nodes.
    pub spots: Vec<Spot>,
    /// The numbers of the spots by their source: first those where frames begin, then those to which frames come from each port.
    pub sources: Vec<Vec<u32>>,
    /// The numbers of the spots at each port, in the order of their sources.
    pub at: Vec<Vec<u32>>,
    /// Each port once, after those from which links come to it.
    pub order: Vec<usize>,
}

/// The plan of a network, or the ring of its ports. In proportion to the nodes of all links, and to the ports.
pub fn plan_of(alloc: Global, network: &Network) -> Result<Plan, Fault>
    requires { IsNetwork network.now }
    ensures plan { IfOk result (IsPlanOf network.now) }
    ensures fault { IfErr result (IsFault network.now) }
{
    let ports = network.ports.len();
    let spots = spots_in_order(alloc, network)?;
    let sources = by_source(alloc, &spots, ports + 1)?;
    let spot_ports = ports_of(alloc, &spots)?;
    let at = by_port(alloc, &spots, &spot_ports, ports, &sources)?;
    let order = order_of(alloc, &spots, &spot_ports, ports, &sources, &at)?;
    Ok(Plan {
        spots,
        sources,
        at,
        order,
    })
}

/// A network has never both an order and a ring.
pub fn order_or_ring()
    ensures { OrderOrRing }
{}

/// Of a network one ring at most is told, and it is one.
pub fn one_ring_is_told()
    ensures one { OneRing }
    ensures ring { ToldRingsAreRings }
{}
