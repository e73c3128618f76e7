//! Paths of an edit.

ghost use Rattle.std.specs.Prelude.{◌≡◌, ◌≤◌, length, nat_eq, IfOk};
ghost use Rattle.std.specs.List.{list_any};
ghost use Rattle.net_edits.specs.Values as spec;
ghost use Rattle.net_model.specs.Plain as plain;

use net_cells::queues;
use net_model::{Network, PathEntry};
use std::alloc::{AllocError, Global};

const MOST_HOPS: usize = 16;

/// The queues along a path.
pub(crate) fn entry_queues(alloc: Global, path: &[PathEntry]) -> Result<Vec<u32>, AllocError>
    ensures { IfOk result (λ v. v.items ≡ spec.entry_queues path.now) }
{
    path.iter().map(|entry| entry.queue).collect(alloc)
}

fn is_among(number: u32, numbers: &[u32]) -> bool
    ensures { result ≡ list_any (nat_eq number) numbers.now }
{
    numbers.iter().any(|other| number == *other)
}

fn all_differ(numbers: &[u32]) -> bool
    ensures { result ≡ plain.all_differ numbers.now }
{
    for place in 0..numbers.len() {
        if is_among(numbers[place], &numbers[place + 1..]) {
            return false;
        }
    }
    true
}

fn are_queues(net: &Network, path: &[u32], lanes: &[u32]) -> bool
    ensures { result ≡ spec.are_queues net.now path.now lanes.now }
{
    let count = path.len().min(lanes.len());
    for hop in 0..count {
        if queues(net, path[hop]) <= lanes[hop] {
            return false;
        }
    }
    true
}

/// Whether servers with a queue each may be a path: 1 to 16 of them, none twice, each with that queue.
pub(crate) fn may_be_path(net: &Network, path: &[u32], lanes: &[u32]) -> bool
    ensures { result ≡ spec.may_be_path net.now path.now lanes.now }
{
    if path.is_empty() {
        return false;
    }
    if path.len() > MOST_HOPS {
        return false;
    }
    all_differ(path) && are_queues(net, path, lanes)
}
