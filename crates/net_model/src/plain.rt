//! Plain networks, for examples.

ghost use Rattle.std.specs.Prelude.{◌≡◌, ◌<◌, ◌≤◌, pos, length, IsTrue, IfOk};
ghost use Rattle.std.specs.String.{string_bytes};
ghost use Rattle.rational.specs.Rational.{int};
ghost use Rattle.rational.specs.Ratio.{IsSmall};
ghost use Rattle.upp_curve.specs.Kinds.{bucket};
ghost use Rattle.net_model.specs.Views.{server_of, flow_of, servers_of, flows_of};
ghost use Rattle.net_model.specs.Plain.{letter, plain_server, plain_flow, plain_servers, plain_flows};
ghost use Rattle.net_model.specs.Plain.{plain_net, is_plain, contents};

use crate::flow::Flow;
use crate::network::Network;
use crate::server::{Discipline, Server, ServiceKind};
use fraction128::Frac;
use rational::Extended;
use std::alloc::{AllocError, Global};
use upp_curve::affine_segment::{Line, Piece};
use upp_curve::{Curve, Tail};

fn letter_of(alloc: Global, number: usize) -> Result<String, AllocError>
    requires { number < 26 }
    ensures { IfOk result (λ s. string_bytes s ≡ letter number) }
{
    let mut name = String::new(alloc);
    name.push((97 + number as u8) as char)?;
    Ok(name)
}

fn bucket_of(alloc: Global, burst: u8, rate: u8) -> Result<Curve, AllocError>
    requires { IsSmall (int (pos burst)) }
    ensures { IfOk result (λ c. c ≡ bucket (int (pos burst)) (int (pos rate))) }
{
    let value = Frac::from(burst as u64);
    let mut pieces = Vec::with_capacity(alloc, 1)?;
    pieces.push(Piece {
        x: Frac::zero(),
        at: Extended::Fin(value),
        line: Some(Line {
            icept: value,
            slope: Frac::from(rate as u64),
        }),
    })?;
    Ok(Curve::from_normal(pieces, Tail::Affine { rank: Frac::zero() }))
}

fn server_at(alloc: Global, number: usize) -> Result<Server, AllocError>
    requires { number < 26 }
    ensures { IfOk result (λ s. server_of s ≡ plain_server number) }
{
    Ok(Server {
        name: letter_of(alloc, number)?,
        rate: Frac::from(1u64),
        kind: ServiceKind::Latency(Frac::zero()),
        service: bucket_of(alloc, 0, 1)?,
        link: Frac::zero(),
        discipline: Discipline::Fifo,
    })
}

fn flow_at(alloc: Global, number: usize, path: &[u32]) -> Result<Flow, AllocError>
    requires { number < 26 }
    ensures { IfOk result (λ f. flow_of f ≡ plain_flow number path.now) }
{
    Ok(Flow {
        name: letter_of(alloc, number)?,
        path: Vec::from_slice(alloc, path)?,
        queues: vec![in alloc; 0; path.len()]?,
        packet: 1,
        arrival: bucket_of(alloc, 1, 0)?,
    })
}

fn servers_to(alloc: Global, count: usize) -> Result<Vec<Server>, AllocError>
    requires { count ≤ 26 }
    ensures { IfOk result (λ v. servers_of v.items ≡ plain_servers count) }
{
    let mut servers = Vec::with_capacity(alloc, count)?;
    for number in 0..count {
        servers.push(server_at(alloc, number)?)?;
    }
    Ok(servers)
}

fn flows_along(alloc: Global, paths: &[&[u32]]) -> Result<Vec<Option<Flow>>, AllocError>
    requires { length paths.now ≤ 26 }
    ensures { IfOk result (λ v. flows_of v.items ≡ plain_flows 0 (contents paths.now)) }
{
    let mut flows = Vec::with_capacity(alloc, paths.len())?;
    for (number, path) in paths.iter().enumerate() {
        if path.is_empty() {
            flows.push(None)?;
        } else {
            flows.push(Some(flow_at(alloc, number, path)?))?;
        }
    }
    Ok(flows)
}

/// A network for examples: so many servers, named a, b, c and so on, first come first served, of rate 1 and without a
/// latency; and for each path a flow, named in the same way, that has one packet of 1 bit in all. An empty path leaves
/// its flow's place empty.
pub fn plain_network(alloc: Global, servers: usize, paths: &[&[u32]]) -> Result<Network, AllocError>
    requires { IsTrue (is_plain servers (contents paths.now)) }
    ensures { IfOk result (λ n. n ≡ plain_net servers (contents paths.now)) }
{
    Ok(Network::new(servers_to(alloc, servers)?, flows_along(alloc, paths)?))
}
