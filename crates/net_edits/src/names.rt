//! The servers and flows that an edit names.

ghost use Rattle.std.specs.Prelude.{◌≡◌, ◌<◌, length, slice_get, IsSome, IfOk, IfErr};
ghost use Rattle.net_model.specs.Accepted.{IsAccepted, IsServer, IsFlow};
ghost use Rattle.net_model.specs.Views.{server_of, flow_of};
ghost use Rattle.net_cells.specs.Numbered.{flow_at};
ghost use Rattle.net_edits.specs.Lookups as spec;
ghost use Rattle.net_edits.specs.Refusals.{unknown_name};
ghost use Rattle.net_edits.specs.Replies.{Tells, Refuses};

use crate::fault::EditFault;
use net_cells::live_flow;
use net_model::{Flow, Network, PathEntry, Server};
use std::alloc::Global;

/// The number of the server with a name.
pub(crate) fn server_number(alloc: Global, net: &Network, name: &str) -> Result<u32, EditFault>
    ensures number { Tells (spec.server_number net.now name.now) result }
    ensures unknown { IfErr result (λ _. spec.server_number net.now name.now ≡ Err (unknown_name name.now)) }
    ensures within { IfOk result (λ s. s < length net.now.servers) }
{
    net.keeps();
    match net.server_named(name) {
        Some(number) => Ok(number),
        None => Err(EditFault::UnknownName(String::from_str(alloc, name)?)),
    }
}

/// The number of the live flow with a name.
pub(crate) fn flow_number(alloc: Global, net: &Network, name: &str) -> Result<u32, EditFault>
    ensures number { Tells (spec.flow_number net.now name.now) result }
    ensures unknown { IfErr result (λ _. spec.flow_number net.now name.now ≡ Err (unknown_name name.now)) }
    ensures live { IfOk result (λ i. IsSome (flow_at net.now i)) }
{
    net.keeps();
    match net.flow_named(name) {
        Some(number) => Ok(number),
        None => Err(EditFault::UnknownName(String::from_str(alloc, name)?)),
    }
}

/// The numbers of the servers of a path.
pub(crate) fn server_numbers(
    alloc: Global,
    net: &Network,
    path: &[PathEntry],
) -> Result<Vec<u32>, EditFault>
    ensures numbers { IfOk result (λ v. spec.server_numbers net.now path.now ≡ Ok v.items) }
    ensures refused { IfErr result (Refuses (spec.server_numbers net.now path.now)) }
{
    let mut numbers = Vec::with_capacity(alloc, path.len())?;
    for entry in path {
        let number = server_number(alloc, net, &entry.server)?;
        numbers.push(number)?;
    }
    Ok(numbers)
}

/// Whether no live flow has a name.
pub(crate) fn is_free(net: &Network, name: &str) -> bool
    ensures { result ≡ spec.is_free net.now name.now }
{
    net.keeps();
    net.flow_named(name).is_none()
}

/// The server of a number.
pub(crate) fn server_at(net: &Network, number: u32) -> &Server
    requires { number < length net.now.servers }
    ensures server { slice_get net.now.servers number ≡ Some (server_of result.now) }
    ensures kept { IsServer (server_of result.now) }
    ensures accepted { IsAccepted net.now }
{
    &net.servers()[number as usize]
}

/// The live flow of a number.
pub(crate) fn flow_of_number(net: &Network, number: u32) -> &Flow
    requires { IsSome (flow_at net.now number) }
    ensures flow { slice_get net.now.flows number ≡ Some (Some (flow_of result.now)) }
    ensures kept { IsFlow net.now.servers (flow_of result.now) }
    ensures accepted { IsAccepted net.now }
{
    net.keeps();
    match live_flow(net, number) {
        Some(flow) => flow,
        None => unreachable!(),
    }
}
