//! The network of a file, or the answer where there is none.

ghost use Rattle.std.specs.Prelude.{IfErr, IfOk};
ghost use Rattle.command_replies.specs.OnFiles.{IsNetOf, IsNoNetwork};
ghost use Rattle.command_replies.specs.View.{reply_of};
ghost use Rattle.commands.specs.FileCounts.{CountsInReading};

use command_replies::{Answer, on_fault};
use net_model::Network;
use net_text::read_network;
use outcomes::Steps;
use std::alloc::{AllocError, Global};
use std::sync::ledger::Ledger;

/// The network that a file with this name and these bytes gives, with all that a network keeps; or else the answer: of the
/// first rule that its tables break, of the first curve over a limit, or none for want of memory. The steps are exactly
/// the operators of the folds of the file's closures where there is a network, and no more where there is none.
pub(crate) fn network_from<L: Ledger>(
    alloc: Global,
    file: &str,
    bytes: &[u8],
    steps: &mut Steps<L>,
) -> Result<Network, Result<Answer, AllocError>>
    ensures network { IfOk result (IsNetOf bytes.now) }
    ensures none { IfErr result (λ told. IfOk told (λ r. IsNoNetwork file.now bytes.now (reply_of r))) }
    ensures counts { CountsInReading bytes.now steps.old steps.new result }
{
    match read_network(alloc, bytes, steps) {
        Ok(network) => {
            network.keeps();
            Ok(network)
        }
        Err(fault) => Err(on_fault(alloc, file, fault)),
    }
}
