//! A fork of three ports, and one link over it.

ghost use Rattle.std.specs.Prelude.{◌≡◌, Some, None, [], ◌∷◌, IfOk};
ghost use Rattle.tree_network.specs.Networks.{IsNetwork};
ghost use Rattle.worked_tables.specs.Fork.{IsFork, IsOverFork, ForkReachesBound, slow_port, node_behind};
ghost use Rattle.worked_tables.specs.WrittenFork.{IsWrittenFork};

use std::alloc::{AllocError, Global};
use tree_network::{Discipline, Link, Network, Node, Port};

/// A port of 100 Mbit/s after a latency of 10 microseconds.
fn slow(link: u64) -> Port
    ensures { result ≡ slow_port link }
{
    Port {
        rate: 102_400_000_000,
        pace: 102_400_000_000,
        latency: 10_000_000,
        link,
        discipline: Discipline::Fifo,
        gate: None,
    }
}

/// A node of queue 0 of a port.
fn node(port: u16, from: Option<u16>) -> Node
    ensures { result ≡ node_behind port from }
{
    Node {
        port,
        queue: 0,
        from,
    }
}

/// Three ports: from the first to the two others.
fn ports(alloc: Global) -> Result<Vec<Port>, AllocError>
    ensures { IfOk result (λ v. v.items ≡ slow_port 5000000 ∷ slow_port 0 ∷ slow_port 0 ∷ []) }
{
    let mut ports = Vec::new(alloc);
    ports.push(slow(5_000_000))?;
    ports.push(slow(0))?;
    ports.push(slow(0))?;
    Ok(ports)
}

/// Frames of 12,000 bits, one each millisecond, over the three ports.
fn link(alloc: Global) -> Result<Link, AllocError>
    ensures { IfOk result IsOverFork }
{
    let mut nodes = Vec::new(alloc);
    nodes.push(node(0, None))?;
    nodes.push(node(1, Some(0)))?;
    nodes.push(node(2, Some(0)))?;
    Ok(Link {
        frame: 12_000,
        gap: 1_000_000_000,
        jitter: 0,
        nodes,
    })
}

/// The fork.
pub fn fork(alloc: Global) -> Result<Network, AllocError>
    ensures fork { IfOk result IsFork }
    ensures network { IfOk result IsNetwork }
{
    let ports = ports(alloc)?;
    let mut links = Vec::new(alloc);
    links.push(link(alloc)?)?;
    Ok(Network { ports, links })
}

/// All that the law of tables asks is kept by a run over the fork in which a frame waits, and which reaches the bound of
/// a branch: a law.
pub fn a_run_reaches_its_bound()
    ensures { ForkReachesBound }
{}

/// Two tables, byte by byte, write the fork, and the run over it is one of the network that they write, so that what is
/// promised of such runs (`IsWrittenRun`) is about something: a law.
pub fn a_written_run_is_kept()
    ensures { IsWrittenFork }
{}
