//! Edits of one server.

ghost use Rattle.std.specs.Prelude.{◌≡◌, IfOk};
ghost use Rattle.net_model.specs.Views.{server_of};
ghost use Rattle.net_edits.specs.Changed as changed;
ghost use Rattle.net_edits.specs.Edited as spec;
ghost use Rattle.net_edits.specs.Replies.{IsChangeReply, IsOverNone};

use crate::change::Change;
use crate::fault::EditFault;
use crate::names::{server_at, server_number};
use crate::numbers::{is_negative, is_positive, length_of, quantum_of};
use crate::quanta::server_fits;
use crate::service::{with_latency, with_rate};
use fraction128::Frac;
use net_model::{Network, Server, ServiceKind};
use std::alloc::{AllocError, Global};

/// Another rate.
pub(crate) fn rate_edited(
    alloc: Global,
    net: &Network,
    name: &str,
    rate: Frac,
) -> Result<Change, EditFault>
    ensures reply { IsChangeReply net.now (spec.rate_edited net.now name.now rate) result }
    ensures memory { result ≡ Err EditFault.NoMemory → IsOverNone (spec.rate_edited net.now name.now rate) }
{
    let number = server_number(alloc, net, name)?;
    if !is_positive(rate) {
        return Err(EditFault::BadValue);
    }
    let server = with_rate(alloc, server_at(net, number), number, rate)?;
    Ok(Change::Server(number, server))
}

fn has_latency(server: &Server) -> bool
    ensures { result ≡ spec.is_latency server.now.kind }
{
    match server.kind {
        ServiceKind::Latency(_) => true,
        ServiceKind::Gate { .. } => false,
        ServiceKind::Listed => false,
    }
}

/// Another latency.
pub(crate) fn latency_edited(
    alloc: Global,
    net: &Network,
    name: &str,
    latency: Frac,
) -> Result<Change, EditFault>
    ensures reply { IsChangeReply net.now (spec.latency_edited net.now name.now latency) result }
    ensures memory { result ≡ Err EditFault.NoMemory → IsOverNone (spec.latency_edited net.now name.now latency) }
{
    let number = server_number(alloc, net, name)?;
    let old = server_at(net, number);
    if is_negative(latency) {
        return Err(EditFault::BadValue);
    }
    if !has_latency(old) {
        return Err(EditFault::BadValue);
    }
    let server = with_latency(alloc, old, number, latency)?;
    Ok(Change::Server(number, server))
}

fn with_link(server: &Server, link: Frac) -> Result<Server, AllocError>
    ensures { IfOk result (λ s. server_of s ≡ changed.with_link link (server_of server.now)) }
{
    let mut copy = server.copy()?;
    copy.link = link;
    Ok(copy)
}

/// Another link.
pub(crate) fn link_edited(
    alloc: Global,
    net: &Network,
    name: &str,
    link: Frac,
) -> Result<Change, EditFault>
    ensures { IsChangeReply net.now (spec.link_edited net.now name.now link) result }
{
    let number = server_number(alloc, net, name)?;
    if is_negative(link) {
        return Err(EditFault::BadValue);
    }
    let server = with_link(server_at(net, number), link)?;
    Ok(Change::Server(number, server))
}

fn with_quantum(server: &Server, queue: u32, bits: u32) -> Result<Server, AllocError>
    ensures { IfOk result (λ s. server_of s ≡ changed.with_quantum queue bits (server_of server.now)) }
{
    let mut copy = server.copy()?;
    copy.discipline.set_quantum(queue, bits);
    Ok(copy)
}

/// Another quantum.
pub(crate) fn quantum_edited(
    alloc: Global,
    net: &Network,
    name: &str,
    queue: i64,
    bits: i64,
) -> Result<Change, EditFault>
    ensures { IsChangeReply net.now (spec.quantum_edited net.now name.now queue bits) result }
{
    let number = server_number(alloc, net, name)?;
    let old = server_at(net, number);
    let queue = quantum_of(&old.discipline, queue)?;
    let bits = length_of(bits)?;
    let server = with_quantum(old, queue, bits)?;
    if !server_fits(net, number, &server) {
        return Err(EditFault::BadValue);
    }
    Ok(Change::Server(number, server))
}
