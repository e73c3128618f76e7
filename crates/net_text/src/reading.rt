//! Files of networks.

ghost use Rattle.std.specs.Prelude.{IfOk, IfErr};
ghost use Rattle.outcomes.specs.Spending.{SpendsSteps};
ghost use Rattle.net_text.specs.Becoming.{IsTold};
ghost use Rattle.net_text.specs.Folds.{FoldsOfFile};
ghost use Rattle.net_text.specs.Reading.{IsNetworkOf, IsAnswered, FailsFile};
ghost use Rattle.net_text.specs.Wants.{FileEnds, by_kind};

use crate::flows::flows_of;
use crate::servers::servers_of;
use net_draft::{DraftFault, read_draft};
use net_model::{NetFault, NetKind, Network};
use outcomes::Steps;
use std::alloc::Global;
use std::sync::ledger::Ledger;

fn told(alloc: Global, fault: DraftFault) -> NetFault
    ensures { IsTold fault result }
{
    match fault {
        DraftFault::NoMemory => NetFault {
            kind: NetKind::NoMemory,
            place: String::new(alloc),
        },
        DraftFault::Fault(fault) => fault,
    }
}

fn network_of<L: Ledger>(
    alloc: Global,
    text: &[u8],
    steps: &mut Steps<L>,
) -> Result<Network, DraftFault>
    ensures network { IfOk result (IsNetworkOf text.now) }
    ensures fault { IfErr result (FailsFile text.now) }
    ensures spends { SpendsSteps (FoldsOfFile text.now) DraftFault.NoMemory (FileEnds text.now)
        steps.old steps.new result }
{
    let draft = read_draft(alloc, text)?;
    let servers = servers_of(alloc, &draft.servers)?;
    let flows = flows_of(alloc, &draft.flows, steps)?;
    Ok(Network::of_version(draft.version, servers, flows))
}

/// The network that the bytes of a file give, or its first fault: of its tables in their order, and past them of the
/// first curve that is over a limit, services of servers in order, then arrivals of flows, each before its closure,
/// which is over the limit that the first operator of its fold is over. It takes a step for each operator of the
/// folds of the closures that the file asks for, at most so many where it is refused. Only where an allocation was
/// refused the kind is `NoMemory`, with no place. Where steps were counted till then, all servers and some flows have
/// been made, with a step for each operator of the folds of their closures, and of a closure that was under way each
/// call that is counted is within its limits.
pub fn read_network<L: Ledger>(
    alloc: Global,
    text: &[u8],
    steps: &mut Steps<L>,
) -> Result<Network, NetFault>
    ensures network { IfOk result (IsNetworkOf text.now) }
    ensures fault { IfErr result (IsAnswered text.now) }
    ensures spends { SpendsSteps (FoldsOfFile text.now) NetKind.NoMemory (FileEnds text.now)
        steps.old steps.new (by_kind result) }
{
    match network_of(alloc, text, steps) {
        Ok(network) => Ok(network),
        Err(fault) => Err(told(alloc, fault)),
    }
}
