//! The windows from each packet of a flow to itself and to each later one.

ghost use Rattle.std.specs.Prelude.{◌≡◌, ◌++◌, ◌≤◌, IfOk, OnOk, OnErr, length};
ghost use Rattle.packet_windows.specs.Scans as scans;

use std::alloc::{AllocError, Global};

/// A packet of the flow.
#[derive(Clone, Copy)]
pub struct Entry {
    /// When it enters, in steps of the grid.
    pub time: u128,
    /// How long it is, in bits.
    pub bits: u32,
}

/// The time from one packet to another.
#[derive(Clone, Copy)]
pub struct Window {
    /// How long it is, in steps of the grid.
    pub length: u128,
    /// The bits of the two packets and of those between them.
    pub bits: u64,
}

/// Appends the windows from the packet at `first` to each of these.
fn push_windows(into: &mut Vec<Window>, first: u128, entries: &[Entry]) -> Result<(), AllocError>
    requires ordered { scans.EnterFrom first entries.now }
    requires few { length entries.now ≤ 1024 }
    ensures { OnOk result (into.new.items ≡ into.old.items ++ scans.windows_from first 0 entries.now) }
{
    let mut bits: u64 = 0;
    for entry in entries {
        bits += entry.bits as u64;
        into.push(Window {
            length: entry.time - first,
            bits,
        })?;
    }
    Ok(())
}

/// The windows from each packet to itself and to each later one.
pub fn windows_of(alloc: Global, entries: &[Entry]) -> Result<Vec<Window>, AllocError>
    requires ordered { scans.EnterFrom 0 entries.now }
    requires few { length entries.now ≤ 1024 }
    ensures { IfOk result (λ v. v.items ≡ scans.windows entries.now) }
{
    let count = entries.len();
    let mut windows = Vec::with_capacity(alloc, count * (count + 1) / 2)?;
    for first in 0..entries.len() {
        let later = &entries[first..];
        push_windows(&mut windows, later[0].time, later)?;
    }
    Ok(windows)
}
