//! The spots of a network: the nodes of its links' trees, with numbers.

ghost use Rattle.std.specs.Prelude.{◌≡◌, ◌<◌, ◌≤◌, ◌+◌, ◌^◌, ◌++◌, ℕ, length, IfOk, OnOk};
ghost use Rattle.std.specs.Option.{ForSome};
ghost use Rattle.tree_network.specs.Networks.{HangsBefore, IsNetwork, longest_frame, node_at};
ghost use Rattle.tree_network.specs.Spots.{HangsTogether, SpotsAreInRange, number_before, source_in, spots_in, spots_of};

use crate::network::{Link, Network};
use std::alloc::{AllocError, Global};

/// A node of a link's tree. It is kept in 16 bytes, since ports look at their spots all over the list of these.
#[derive(Clone, Copy)]
pub struct Spot {
    /// The longest frame of the link, in bits.
    pub frame: u32,
    /// The number of the spot before; its own where its frames begin.
    pub from: u32,
    /// The number of the link.
    pub link: u16,
    /// The number of the port.
    pub port: u16,
    /// Where its frames come from: 0 where they begin, else one more than the number of the port before.
    pub source: u16,
    /// The queue of the link's frames there.
    pub queue: u8,
}

/// Where the frames of a link's node come from: 0 where they begin, else one more than the number of the port before.
fn source_of(link: &Link, from: Option<u16>) -> usize
    requires inside { ForSome from (λ place. place < length link.now.nodes.items) }
    requires small { (k : ℕ) → k < length link.now.nodes.items → (node_at link.now k).port < 4096 }
    ensures value { result ≡ source_in link.now from }
    ensures small { result ≤ 4096 }
{
    match from {
        None => 0,
        Some(place) => link.nodes[place as usize].port as usize + 1,
    }
}

/// The number of the spot from which frames come to the node at this place, where that of the link's first node is given.
fn spot_before(first: usize, place: usize, from: Option<u16>) -> usize
    requires fits { first + place < 2 ^ 64 }
    requires hangs { HangsBefore place from }
    ensures value { result ≡ number_before first place from }
    ensures small { result ≤ first + place }
{
    match from {
        None => first + place,
        Some(from) => first + from as usize,
    }
}

/// Adds the spots of a link of this number.
fn add_link(spots: &mut Vec<Spot>, link: &Link, number: usize) -> Result<(), AllocError>
    requires hangs { HangsTogether link.now }
    requires small { number < 16384 }
    requires frame { link.now.frame ≤ longest_frame }
    requires few { length spots.old.items + length link.now.nodes.items ≤ 2 ^ 32 }
    ensures { OnOk result (spots.new.items ≡ spots.old.items ++ spots_in number (length spots.old.items) link.now (length link.now.nodes.items)) }
{
    for place in 0..link.nodes.len() {
        let node = link.nodes[place];
        let first = spots.len() - place;
        let before = source_of(link, node.from);
        let earlier = spot_before(first, place, node.from);
        let frame = link.frame as u32;
        let from = earlier as u32;
        let own = number as u16;
        let source = before as u16;
        spots.push(Spot {
            frame,
            from,
            link: own,
            port: node.port,
            source,
            queue: node.queue,
        })?;
    }
    Ok(())
}

/// How many nodes the links have.
fn node_count(links: &[Link]) -> usize {
    let mut count: usize = 0;
    for link in links {
        count = count.saturating_add(link.nodes.len());
    }
    count
}

/// The spots of the network.
pub(crate) fn spots_in_order(alloc: Global, network: &Network) -> Result<Vec<Spot>, AllocError>
    requires { IsNetwork network.now }
    ensures { IfOk result (λ v. v.items ≡ spots_of network.now) }
{
    let mut spots = Vec::with_capacity(alloc, node_count(&network.links))?;
    for number in 0..network.links.len() {
        add_link(&mut spots, &network.links[number], number)?;
    }
    Ok(spots)
}

/// The spots of a network in range are in range.
pub fn spots_are_in_range()
    ensures { SpotsAreInRange }
{}
