//! One flow more.

ghost use Rattle.std.specs.Prelude.{◌≡◌, IfOk};
ghost use Rattle.rational.specs.Rational.{◌≤ℚ◌};
ghost use Rattle.min_plus.specs.Functions.{zero_q};
ghost use Rattle.net_model.specs.Views.{flow_of};
ghost use Rattle.net_edits.specs.Edited as spec;
ghost use Rattle.net_edits.specs.Replies.{IsChangeReply};

use crate::change::Change;
use crate::fault::EditFault;
use crate::flow_edits::bucket_of;
use crate::names::{is_free, server_numbers};
use crate::numbers::{is_negative, length_of};
use crate::quanta::fits_along;
use crate::ways::{entry_queues, may_be_path};
use fraction128::Frac;
use net_model::{Flow, Network, PathEntry, is_name};
use std::alloc::{AllocError, Global};

const MOST_FLOWS: usize = 256;

fn new_flow(
    alloc: Global,
    name: &str,
    bits: u32,
    bucket: (Frac, Frac),
    path: Vec<u32>,
    lanes: Vec<u32>,
) -> Result<Flow, AllocError>
    requires burst { zero_q ≤ℚ bucket.0 }
    requires rate { zero_q ≤ℚ bucket.1 }
    ensures { IfOk result (λ f. flow_of f ≡ spec.new_flow name.now bits bucket.0 bucket.1 path.items lanes.items) }
{
    let (burst, rate) = bucket;
    Ok(Flow {
        name: String::from_str(alloc, name)?,
        path,
        queues: lanes,
        packet: bits,
        arrival: bucket_of(alloc, burst, rate)?,
    })
}

/// A flow more, of a bucket of burst and rate.
pub(crate) fn add_edited(
    alloc: Global,
    net: &Network,
    name: &str,
    bits: i64,
    bucket: (Frac, Frac),
    entries: &[PathEntry],
) -> Result<Change, EditFault>
    ensures { IsChangeReply net.now (spec.add_edited net.now name.now bits bucket.0 bucket.1 entries.now) result }
{
    let (burst, rate) = bucket;
    let path = server_numbers(alloc, net, entries)?;
    if !is_free(net, name) {
        return Err(EditFault::NameTaken(String::from_str(alloc, name)?));
    }
    if !is_name(name) {
        return Err(EditFault::BadValue);
    }
    if is_negative(burst) {
        return Err(EditFault::BadValue);
    }
    if is_negative(rate) {
        return Err(EditFault::BadValue);
    }
    let bits = length_of(bits)?;
    let lanes = entry_queues(alloc, entries)?;
    if !may_be_path(net, &path, &lanes) {
        return Err(EditFault::BadValue);
    }
    if !fits_along(net.servers(), bits, &path, &lanes) {
        return Err(EditFault::BadValue);
    }
    if net.flows().len() >= MOST_FLOWS {
        return Err(EditFault::LimitReached);
    }
    let flow = new_flow(alloc, name, bits, bucket, path, lanes)?;
    Ok(Change::More(flow))
}
