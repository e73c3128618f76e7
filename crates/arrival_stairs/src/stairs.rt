//! Stairs, bundles of them, and what these bring at 0.

ghost use Rattle.std.specs.Prelude.{◌≡◌, ◌^◌, ◌<◌, All, IfOk};
ghost use Rattle.arrival_stairs.specs.Stairs.{AreBundles, IsStair, stair_level, bundle_level, bundle_part, levels_at};

use arrival_lines::{Line, Part};
use std::alloc::{AllocError, Global};

/// What a link brings: at most a frame each gap, each up to the jitter early.
#[derive(Clone, Copy)]
pub struct Stair {
    /// The longest frame, in grains.
    pub frame: u64,
    /// In picoseconds, above 0.
    pub gap: u64,
    /// In picoseconds.
    pub jitter: u64,
}

/// Links that come to a queue from one port, or begin at its port.
#[derive(Drop)]
pub struct Bundle {
    /// What each of them brings.
    pub stairs: Vec<Stair>,
    /// The line of the pace of the port from which they come.
    pub pace: Option<Line>,
}

/// What the stair brings at 0.
fn start_of(stair: Stair) -> u128
    requires { IsStair stair }
    ensures { result ≡ stair_level 0 stair }
{
    stair.frame as u128 * (stair.jitter / stair.gap + 1) as u128
}

/// What the bundle's stairs bring at 0.
pub(crate) fn level_of(bundle: &Bundle) -> u64
    requires stairs { All IsStair bundle.now.stairs.items }
    requires small { bundle_level 0 bundle.now < 2 ^ 62 }
    ensures { result ≡ bundle_level 0 bundle.now }
{
    let mut level: u64 = 0;
    for stair in &bundle.stairs {
        level += start_of(*stair) as u64;
    }
    level
}

/// The bundles as they are at 0: each stays at the level of its stairs, at most its pace.
pub(crate) fn levels_of(alloc: Global, bundles: &[Bundle]) -> Result<Vec<Part>, AllocError>
    requires { AreBundles bundles.now }
    ensures { IfOk result (λ v. v.items ≡ levels_at bundles.now 0) }
{
    let mut levels = Vec::with_capacity(alloc, bundles.len())?;
    for bundle in bundles {
        levels.push(Part {
            sum: Line {
                burst: level_of(bundle),
                rate: 0,
            },
            pace: bundle.pace,
        })?;
    }
    Ok(levels)
}
