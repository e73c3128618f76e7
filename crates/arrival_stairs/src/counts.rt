//! How often stairs jump.

ghost use Rattle.std.specs.Prelude.{◌≡◌, ◌+◌, ◌^◌, ◌<◌, ◌≤◌, ◌↔◌, All, IsTrue, MatchOption};
ghost use Rattle.arrival_stairs.specs.Jumps.{stair_jump_count, bundle_jump_count, jump_count};
ghost use Rattle.arrival_stairs.specs.StairExcess.{IsLastWalked};
ghost use Rattle.arrival_stairs.specs.Stairs.{AreBundles, IsStair};

use crate::stairs::{Bundle, Stair};

/// At most so many jumps of a queue are walked over.
const MOST_JUMPS: u64 = 4_096;

/// How often a stair jumps after 0, up to a time.
fn stair_count(stair: Stair, end: u64) -> u64
    requires stair { IsStair stair }
    requires end { end < 2 ^ 62 }
    ensures is { result ≡ stair_jump_count end stair }
    ensures small { result < 2 ^ 63 }
{
    (end + stair.jitter) / stair.gap - stair.jitter / stair.gap
}

/// How often the bundle's stairs jump up to a time, and so many more; none where these are above the limit.
fn bundle_count(bundle: &Bundle, end: u64, before: u64) -> Option<u64>
    requires stairs { All IsStair bundle.now.stairs.items }
    requires end { end < 2 ^ 62 }
    requires before { before ≤ 4096 }
    ensures { let all = before + bundle_jump_count end bundle.now in MatchOption result (4096 < all) (λ n. (n ≡ all) × (n ≤ 4096)) }
{
    let mut all = before;
    for stair in &bundle.stairs {
        all += stair_count(*stair, end);
        if all > MOST_JUMPS {
            return None;
        }
    }
    Some(all)
}

/// Whether the bundles jump no more often than the limit, after 0 up to a time.
pub(crate) fn are_few(bundles: &[Bundle], end: u64) -> bool
    requires bundles { AreBundles bundles.now }
    requires end { end < 2 ^ 62 }
    ensures { IsTrue result ↔ (jump_count end bundles.now ≤ 4096) }
{
    let mut all: u64 = 0;
    for bundle in bundles {
        match bundle_count(bundle, end, all) {
            None => return false,
            Some(more) => all = more,
        }
    }
    true
}

/// The last time before 2^62 picoseconds until which the bundles jump no more often than the limit, by halving.
pub(crate) fn last_walked(bundles: &[Bundle]) -> u64
    requires { AreBundles bundles.now }
    ensures { IsLastWalked bundles.now result }
{
    let mut low: u64 = 0;
    let mut high: u64 = (1 << 62) - 1;
    while low < high {
        let middle = low + (high - low).div_ceil(2);
        if are_few(bundles, middle) {
            low = middle;
        } else {
            high = middle - 1;
        }
    }
    low
}
