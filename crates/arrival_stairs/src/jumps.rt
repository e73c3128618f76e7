//! The jumps of a bundle's stairs, in order.

ghost use Rattle.std.specs.Prelude.{◌^◌, ◌<◌, All, IfOk, OnOk};
ghost use Rattle.arrival_stairs.specs.Jumps.{AddsJumps, AreInTime, AreJumps};
ghost use Rattle.arrival_stairs.specs.Stairs.{IsStair, stair_level, bundle_level};

use crate::stairs::{Bundle, Stair};
use arrival_heights::jump_time;
use std::alloc::{AllocError, Global};

/// A jump of a stair.
#[derive(Clone, Copy)]
pub(crate) struct Jump {
    /// In picoseconds.
    pub(crate) time: u64,
    /// The stair's frame, in grains.
    pub(crate) frame: u64,
}

/// Adds the jumps of a stair after 0, up to a time.
fn stair_jumps(stair: Stair, end: u64, jumps: &mut Vec<Jump>) -> Result<(), AllocError>
    requires stair { IsStair stair }
    requires end { end < 2 ^ 62 }
    ensures { OnOk result (AddsJumps (λ n. stair_level n stair) end jumps.old.items jumps.new.items) }
{
    let first = stair.jitter / stair.gap + 1;
    let last = (end + stair.jitter) / stair.gap;
    for number in first..last + 1 {
        jumps.push(Jump {
            time: jump_time(number, stair.gap, stair.jitter),
            frame: stair.frame,
        })?;
    }
    Ok(())
}

/// Adds the jumps of a bundle.
fn bundle_jumps(bundle: &Bundle, end: u64, jumps: &mut Vec<Jump>) -> Result<(), AllocError>
    requires stairs { All IsStair bundle.now.stairs.items }
    requires end { end < 2 ^ 62 }
    ensures { OnOk result (AddsJumps (λ n. bundle_level n bundle.now) end jumps.old.items jumps.new.items) }
{
    for stair in &bundle.stairs {
        stair_jumps(*stair, end, jumps)?;
    }
    Ok(())
}

/// The jumps of a bundle after 0, up to a time in picoseconds, in order.
pub(crate) fn jumps_of(alloc: Global, bundle: &Bundle, end: u64) -> Result<Vec<Jump>, AllocError>
    requires stairs { All IsStair bundle.now.stairs.items }
    requires end { end < 2 ^ 62 }
    ensures all { IfOk result (λ v. AreJumps bundle.now end v.items) }
    ensures order { IfOk result (λ v. AreInTime v.items) }
{
    let mut jumps = Vec::new(alloc);
    bundle_jumps(bundle, end, &mut jumps)?;
    jumps.sort_by_key(|jump| jump.time)?;
    Ok(jumps)
}
