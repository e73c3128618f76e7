//! Makes workloads.

ghost use Rattle.std.specs.Prelude.{◌≡◌, IfOk};
ghost use Rattle.exercise_load.specs.Drawn.{drawn_flows};
ghost use Rattle.exercise_load.specs.Loads.{AreOfWorkload};
ghost use Rattle.exercise_load.specs.Workloads.{network_of, trace_of};

use crate::drawn::{DrawnFlow, drawn_flows};
use crate::flows::flows;
use crate::load::Workload;
use crate::packets::packets;
use crate::servers::servers;
use net_model::{Network, Trace};
use std::alloc::{AllocError, Global};

fn network_of(alloc: Global, seed: u64, drawn: &[DrawnFlow]) -> Result<Network, AllocError>
    requires { drawn.now ≡ drawn_flows seed }
    ensures { IfOk result (λ n. n ≡ network_of seed) }
{
    Ok(Network::new(servers(alloc)?, flows(alloc, drawn)?))
}

fn trace_of(alloc: Global, seed: u64, drawn: &[DrawnFlow]) -> Result<Trace, AllocError>
    requires { drawn.now ≡ drawn_flows seed }
    ensures { IfOk result (λ t. t ≡ trace_of seed) }
{
    let sent = packets(alloc, drawn)?;
    let stalls = Vec::new(alloc);
    Ok(Trace::new(sent, stalls))
}

/// The workload of a number: 16 servers of rate 100 (bits in a unit of time) and latency 10, in turn first in, first
/// out, with two priorities, and with two queues in deficit round robin; 24 flows over one to four servers in a row,
/// drawn from the number, of one packet each period; and the packets that they send before the time 1,024,000. A
/// workload of an odd number has flows of one server alone. Refused only for want of memory. (Own choice.)
pub fn workload(alloc: Global, seed: u64) -> Result<Workload, AllocError>
    ensures { IfOk result (λ w. AreOfWorkload seed w.net w.trace) }
{
    let drawn = drawn_flows(alloc, seed)?;
    Ok(Workload {
        net: network_of(alloc, seed, &drawn)?,
        trace: trace_of(alloc, seed, &drawn)?,
    })
}
