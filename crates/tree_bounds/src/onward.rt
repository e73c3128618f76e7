//! The stairs of links: where they begin, and behind a queue.

ghost use Rattle.std.specs.Prelude.{◌≡◌, ◌≤◌, ◌<◌, ◌+◌, Some, length, slice_get, IfOk, IfSome};
ghost use Rattle.arrival_stairs.specs.Stairs.{IsStair};
ghost use Rattle.tree_network.specs.Networks.{IsNetwork, longest_frame};
ghost use Rattle.tree_network.specs.Spots.{AreSpots};
ghost use Rattle.tree_bounds.specs.Stairs.{first_stair, first_stair_of, later_stair, stair_within};
ghost use Rattle.tree_bounds.specs.Lines.{line_of, line_within};
ghost use Rattle.tree_bounds.specs.Onward.{BeginStairs, ArePassedOn, CanBePassedOn, stair_in};
ghost use Rattle.tree_bounds.specs.Solved.{AreAllStairs};

use arrival_lines::{Line, Queue, link_line};
use arrival_stairs::Stair;
use std::alloc::{AllocError, Global};
use tree_network::{Link, Network, Spot};

/// The grains of a bit.
pub(crate) const GRAINS: u64 = 1024;

/// No line may have so many grains at once.
const MOST_BURST: u64 = 1 << 58;

/// No stair may be early by so many picoseconds.
const MOST_JITTER: u64 = 1 << 62;

/// The stair, where its jitter is within its limit.
fn short(stair: Stair) -> Option<Stair>
    ensures { result ≡ stair_within stair.frame stair.gap stair.jitter }
{
    if stair.jitter < MOST_JITTER {
        Some(stair)
    } else {
        None
    }
}

/// The stair of a link where it begins; none where it passes its limit.
fn stair_of(link: &Link) -> Option<Stair>
    requires { link.now.frame ≤ longest_frame }
    ensures { result ≡ first_stair link.now }
{
    short(Stair {
        frame: link.frame * GRAINS,
        gap: link.gap,
        jitter: link.jitter,
    })
}

/// The stair with which a link goes on behind a delay; none where it passes its limit.
fn stair_behind(stair: Stair, delay: u64) -> Option<Stair>
    ensures { result ≡ stair_within stair.frame stair.gap (stair.jitter + delay) }
{
    match stair.jitter.checked_add(delay) {
        None => None,
        Some(jitter) => short(Stair {
            frame: stair.frame,
            gap: stair.gap,
            jitter,
        }),
    }
}

/// The stair with which a link goes on, where it has one and its queue a delay.
fn stair_after(stair: Option<Stair>, row: Option<Queue>) -> Option<Stair>
    ensures { result ≡ later_stair stair row }
{
    match stair {
        None => None,
        Some(stair) => match row {
            None => None,
            Some(queue) => stair_behind(stair, queue.delay),
        },
    }
}

/// The line, where its burst is within its limit.
fn low(line: Line) -> Option<Line>
    ensures { result ≡ line_within line.burst line.rate }
{
    if line.burst < MOST_BURST {
        Some(line)
    } else {
        None
    }
}

/// The line of a stair; none where it passes its limits.
fn line_above(stair: Stair) -> Option<Line>
    requires { 0 < stair.gap }
    ensures { result ≡ line_of (Some stair) }
{
    match link_line(stair.frame, stair.gap, stair.jitter) {
        None => None,
        Some(line) => low(line),
    }
}

/// The line of a stair, where there is one within its limits.
pub(crate) fn line_by(stairs: &[Option<Stair>], n: usize) -> Option<Line>
    requires stairs { AreAllStairs stairs.now }
    requires inside { n < length stairs.now }
    ensures { result ≡ line_of (stair_in stairs.now n) }
{
    match stairs[n] {
        None => None,
        Some(stair) => line_above(stair),
    }
}

/// The stair of the spot's link, where it begins there.
fn first_stair_at(network: &Network, spot: Spot) -> Option<Stair>
    requires network { IsNetwork network.now }
    requires link { spot.link < length network.now.links.items }
    ensures own { spot.source ≡ 0 → result ≡ first_stair_of (slice_get network.now.links.items spot.link) }
    ensures range { IfSome result (λ stair. IsStair stair) }
{
    if spot.source == 0 {
        stair_of(&network.links[spot.link as usize])
    } else {
        None
    }
}

/// A stair for each spot: that of its link where it begins, and none for the others.
pub(crate) fn first_stairs(
    alloc: Global,
    network: &Network,
    spots: &[Spot],
) -> Result<Vec<Option<Stair>>, AllocError>
    requires network { IsNetwork network.now }
    requires spots { AreSpots network.now spots.now }
    ensures begin { IfOk result (λ v. BeginStairs network.now spots.now (length spots.now) v.items) }
    ensures range { IfOk result (λ v. AreAllStairs v.items) }
{
    let mut stairs = Vec::with_capacity(alloc, spots.len())?;
    for spot in spots {
        stairs.push(first_stair_at(network, *spot))?;
    }
    Ok(stairs)
}

/// Notes the stairs with which links come from a port with these rows to these spots.
pub(crate) fn pass_on(
    spots: &[Spot],
    numbers: &[u32],
    rows: &[Option<Queue>],
    stairs: &mut Vec<Option<Stair>>,
)
    requires { CanBePassedOn spots.now numbers.now (length rows.now) (length stairs.old.items) }
    ensures { ArePassedOn spots.now numbers.now rows.now (length numbers.now) stairs.old.items stairs.new.items }
{
    for n in numbers {
        let from = spots[*n as usize].from as usize;
        stairs[*n as usize] = stair_after(stairs[from], rows[spots[from].queue as usize]);
    }
}
