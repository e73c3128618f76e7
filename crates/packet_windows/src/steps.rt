//! The steps of the most bits of a window by its length.

ghost use Rattle.std.specs.Prelude.{◌≡◌, IfOk, OnOk};
ghost use Rattle.std.specs.List.Sorted.{IsPermutation};
ghost use Rattle.packet_windows.specs.Scans as scans;

use crate::windows::Window;
use std::alloc::{AllocError, Global};

/// Puts windows in the order of their lengths.
pub fn put_in_order(windows: &mut Vec<Window>) -> Result<(), AllocError>
    ensures permutation { IsPermutation windows.old.items windows.new.items }
    ensures ordered { OnOk result (scans.LengthenFrom 0 windows.new.items) }
{
    windows.sort_by_key(|window| window.length)?;
    Ok(())
}

/// Of windows in the order of their lengths those with more bits than each that is no longer, from no bits at no length
/// on.
pub fn steps_of(alloc: Global, windows: &[Window]) -> Result<Vec<Window>, AllocError>
    ensures { IfOk result (λ v. v.items ≡ scans.steps_after scans.no_window windows.now) }
{
    let mut steps = Vec::new(alloc);
    let mut last = Window { length: 0, bits: 0 };
    for window in windows {
        if window.bits > last.bits {
            if window.length != last.length {
                steps.push(last)?;
            }
            last = *window;
        }
    }
    steps.push(last)?;
    Ok(steps)
}

/// How long the last window is; 0 where there is none.
pub fn last_length(steps: &[Window]) -> u128
    ensures { result ≡ scans.last_length 0 steps.now }
{
    match steps.last() {
        Some(step) => step.length,
        None => 0,
    }
}
