//! Which servers are known to keep their service curves before their runs are looked at.

ghost use Rattle.std.specs.Prelude.{◌≡◌, ◌<◌, length, map, All, IfOk};
ghost use Rattle.net_model.specs.declared.server.Server.{Server};
ghost use Rattle.net_model.specs.stated_runs.FromTraces.{IsTraceOf};
ghost use Rattle.command_replies.specs.simulated_findings.Told as spec;

use net_model::{Network, Server, ServiceKind, Stall, Trace};
use std::alloc::{AllocError, Global};

// Whether a service curve is not listed by its pieces.
fn is_by_formula(kind: &ServiceKind) -> bool
    ensures { result ≡ spec.is_by_formula kind.now }
{
    match kind {
        ServiceKind::Latency(_) => true,
        ServiceKind::Gate { .. } => true,
        ServiceKind::Listed => false,
    }
}

// Of each server, whether its service curve is not.
fn by_formula(alloc: Global, servers: &[Server]) -> Result<Vec<bool>, AllocError>
    ensures { IfOk result (λ v. v.items ≡ map (λ (s : Server). spec.is_by_formula s.kind) servers.now) }
{
    let mut told = Vec::new(alloc);
    for server in servers {
        told.push(is_by_formula(&server.kind))?;
    }
    Ok(told)
}

// What is told, but of no server that stalls.
fn less_stalled(told: Vec<bool>, stalls: &[Stall]) -> Vec<bool>
    requires { All (λ s. s.server < length told.items) stalls.now }
    ensures { result.items ≡ spec.less_stalled told.items stalls.now }
{
    let mut left = told;
    for stall in stalls {
        left[stall.server as usize] = false;
    }
    left
}

/// Of each server, whether it is known to keep its service curve in the stated run of the trace: it is of kind latency
/// or gate, and has no stall.
pub(crate) fn open_servers(
    alloc: Global,
    net: &Network,
    trace: &Trace,
) -> Result<Vec<bool>, AllocError>
    requires { IsTraceOf net.now trace.now }
    ensures { IfOk result (λ v. v.items ≡ spec.open_servers net.now trace.now) }
{
    let told = by_formula(alloc, net.servers())?;
    Ok(less_stalled(told, trace.stalls()))
}
