//! Places in a file: keys and numbers of entries from 0, as `server[0].service.latency`.

ghost use Rattle.std.specs.Prelude.{◌≡◌, IfOk};
ghost use Rattle.std.specs.String.{string_bytes};
ghost use Rattle.net_draft.specs.Faults.{IsFault, under, nth};

use crate::fault::DraftFault;
use net_model::{NetFault, NetKind};
use std::alloc::{AllocError, Global};

/// The place of a key of the table at a place.
#[tactic(auto, unfolding(crate::specs::Faults::under))]
pub fn under(alloc: Global, place: &str, key: &str) -> Result<String, AllocError>
    ensures { IfOk result (λ s. string_bytes s ≡ under place.now key.now) }
{
    if place.is_empty() {
        String::from_str(alloc, key)
    } else {
        format!(in alloc; "{place}.{key}")
    }
}

/// The place of an entry of the array at a place.
#[tactic(auto, unfolding(crate::specs::Faults::nth))]
pub fn nth(alloc: Global, place: &str, number: usize) -> Result<String, AllocError>
    ensures { IfOk result (λ s. string_bytes s ≡ nth place.now number) }
{
    format!(in alloc; "{place}[{number}]")
}

/// A fault at a place, or want of memory.
pub fn fault_at(alloc: Global, kind: NetKind, place: &str) -> DraftFault
    ensures { IsFault kind place.now result }
{
    match String::from_str(alloc, place) {
        Ok(place) => DraftFault::Fault(NetFault { kind, place }),
        Err(_) => DraftFault::NoMemory,
    }
}

/// A fault at an entry of the array at a place, or want of memory.
pub fn fault_nth(alloc: Global, kind: NetKind, place: &str, number: usize) -> DraftFault
    ensures { IsFault kind (nth place.now number) result }
{
    match nth(alloc, place, number) {
        Ok(place) => DraftFault::Fault(NetFault { kind, place }),
        Err(_) => DraftFault::NoMemory,
    }
}

/// A fault at a key of the table at a place, or want of memory.
pub fn fault_under(alloc: Global, kind: NetKind, place: &str, key: &str) -> DraftFault
    ensures { IsFault kind (under place.now key.now) result }
{
    match under(alloc, place, key) {
        Ok(place) => DraftFault::Fault(NetFault { kind, place }),
        Err(_) => DraftFault::NoMemory,
    }
}
