//! For each server the servers that some flow passes right before it.

ghost use Rattle.std.specs.Prelude.{◌≡◌, [], replicate, ◌<◌, length, All, IfOk, OnOk, IfSome, IfNone};
ghost use Rattle.net_model.specs.net_graph.Waits.{lists_of, AreBelow, AreBefore, AddsSteps, AllLosePlaced, AreBusy};
ghost use Rattle.net_model.specs.net_graph.Waits.{IsFirstIdle, IsWaiting, LosesPlaced};

use crate::Network;
use std::alloc::{AllocError, Global};

// So many empty lists.
fn empty_lists(alloc: Global, count: usize) -> Result<Vec<Vec<u32>>, AllocError>
    ensures { IfOk result (λ v. lists_of v.items ≡ replicate count []) }
{
    let mut lists = Vec::with_capacity(alloc, count)?;
    for _server in 0..count {
        lists.push(Vec::new(alloc))?;
    }
    Ok(lists)
}

// At the end of each step of a path, where it came from.
pub(crate) fn add_path(before: &mut Vec<Vec<u32>>, path: &[u32]) -> Result<(), AllocError>
    requires { All (λ s. s < length before.old.items) path.now }
    ensures { OnOk result (AddsSteps (lists_of before.old.items) (lists_of before.new.items) path.now) }
{
    for hop in 1..path.len() {
        let from = path[hop - 1];
        let to = path[hop] as usize;
        before[to].push(from)?;
    }
    Ok(())
}

// Takes placed servers off the end of a list, and says whether one is left.
fn still_waits(list: &mut Vec<u32>, is_placed: &[bool]) -> bool
    requires { All (λ s. s < length is_placed.now) list.old.items }
    ensures lost { LosesPlaced is_placed.now list.old.items list.new.items }
    ensures waits { IsWaiting is_placed.now list.new.items result }
{
    while let Some(last) = list.last().copied() {
        if !is_placed[last as usize] {
            return true;
        }
        let _ = list.pop();
    }
    false
}

// The first server that is not placed and waits for none.
pub(crate) fn first_idle(before: &mut Vec<Vec<u32>>, is_placed: &[bool]) -> Option<usize>
    requires length { length is_placed.now ≡ length before.old.items }
    requires below { AreBelow (length is_placed.now) (lists_of before.old.items) }
    ensures lost { AllLosePlaced is_placed.now (lists_of before.old.items) (lists_of before.new.items) }
    ensures idle { IfSome result (IsFirstIdle is_placed.now (lists_of before.new.items)) }
    ensures busy { IfNone result (AreBusy is_placed.now (lists_of before.new.items) (length is_placed.now)) }
{
    for server in 0..is_placed.len() {
        if !is_placed[server] && !still_waits(&mut before[server], is_placed) {
            return Some(server);
        }
    }
    None
}

// For each server those that some live flow passes right before it.
pub(crate) fn servers_before(alloc: Global, net: &Network) -> Result<Vec<Vec<u32>>, AllocError>
    ensures { IfOk result (λ v. AreBefore net.now.flows (length net.now.servers) (lists_of v.items)) }
{
    let mut before = empty_lists(alloc, net.servers().len())?;
    for flow in net.flows() {
        if let Some(f) = flow {
            add_path(&mut before, &f.path)?;
        }
    }
    Ok(before)
}
