//! The links that come to a queue, by where they come from.

ghost use Rattle.std.specs.Prelude.{◌≡◌, ◌<◌, ◌++◌, ◌∷◌, [], All, length, map, max, IfOk, OnOk};
ghost use Rattle.tree_network.specs.Spots.{spot_at};
ghost use Rattle.tree_bounds.specs.Groups.{longest_group};
ghost use Rattle.tree_bounds.specs.Grouping.{FitTogether, IsOfOne, both_groups, group_of_spot, grouped, last_with, with_group};
ghost use Rattle.tree_bounds.specs.Lines.{line_of};
ghost use Rattle.tree_bounds.specs.Onward.{stair_in};
ghost use Rattle.tree_bounds.specs.Solved.{AreAllStairs};

use crate::onward::line_by;
use arrival_lines::Line;
use arrival_stairs::Stair;
use std::alloc::{AllocError, Global};
use tree_network::Spot;

/// The links that come to a queue from one source, together.
#[derive(Clone, Copy)]
pub(crate) struct Group {
    /// 0 where they begin, else one more than the number of the port before.
    pub(crate) source: usize,
    /// In grains.
    pub(crate) burst: u128,
    /// In grains a second.
    pub(crate) rate: u128,
    /// In bits.
    pub(crate) longest: u64,
    /// Whether each has a line.
    pub(crate) known: bool,
    /// How many they are.
    pub(crate) count: usize,
}

/// The greater one.
fn greater(a: u64, b: u64) -> u64
    ensures { result ≡ max a b }
{
    if a < b { b } else { a }
}

/// The group of one spot with this line.
fn group_of_one(spot: Spot, line: Option<Line>) -> Group
    ensures one { result ≡ group_of_spot spot line }
    ensures small { IsOfOne result }
{
    match line {
        None => Group {
            source: spot.source as usize,
            burst: 0,
            rate: 0,
            longest: spot.frame as u64,
            known: false,
            count: 1,
        },
        Some(line) => Group {
            source: spot.source as usize,
            burst: line.burst as u128,
            rate: line.rate as u128,
            longest: spot.frame as u64,
            known: true,
            count: 1,
        },
    }
}

/// Two groups of one source together.
fn together(one: Group, other: Group) -> Group
    requires { FitTogether one other }
    ensures { result ≡ both_groups one other }
{
    Group {
        source: one.source,
        burst: one.burst + other.burst,
        rate: one.rate + other.rate,
        longest: greater(one.longest, other.longest),
        known: one.known && other.known,
        count: one.count + other.count,
    }
}

/// Adds a group behind the others.
fn put(groups: &mut Vec<Group>, group: Group) -> Result<(), AllocError>
    ensures { OnOk result (groups.new.items ≡ groups.old.items ++ group ∷ []) }
{
    groups.push(group)?;
    Ok(())
}

/// Adds two groups behind the others.
fn put_two(groups: &mut Vec<Group>, one: Group, other: Group) -> Result<(), AllocError>
    ensures { OnOk result (groups.new.items ≡ groups.old.items ++ one ∷ other ∷ []) }
{
    groups.push(one)?;
    groups.push(other)?;
    Ok(())
}

/// Adds the last group behind the others and one more, or both together where they are of one source.
fn put_behind(groups: &mut Vec<Group>, last: Group, next: Group) -> Result<(), AllocError>
    requires { FitTogether last next }
    ensures { OnOk result (groups.new.items ≡ groups.old.items ++ last_with last next) }
{
    if last.source == next.source {
        return put(groups, together(last, next));
    }
    put_two(groups, last, next)
}

/// Adds a group behind the others, or to the last of them where that is of the same source.
fn add_group(groups: &mut Vec<Group>, next: Group) -> Result<(), AllocError>
    requires { All (λ g. FitTogether g next) groups.old.items }
    ensures { OnOk result (groups.new.items ≡ with_group groups.old.items next) }
{
    match groups.pop() {
        None => put(groups, next),
        Some(last) => put_behind(groups, last, next),
    }
}

/// These spots, side by side. They stand far apart among all spots: here none of them waits for another one to be fetched, as it would
/// behind the divisions of a line.
fn spots_at(alloc: Global, spots: &[Spot], numbers: &[u32]) -> Result<Vec<Spot>, AllocError>
    requires { All (λ n. n < length spots.now) numbers.now }
    ensures { IfOk result (λ v. v.items ≡ map (λ n. spot_at spots.now n) numbers.now) }
{
    let mut found = Vec::with_capacity(alloc, numbers.len())?;
    for n in numbers {
        found.push(spots[*n as usize])?;
    }
    Ok(found)
}

/// The stairs of these spots, side by side, for the same.
fn stairs_at(
    alloc: Global,
    stairs: &[Option<Stair>],
    numbers: &[u32],
) -> Result<Vec<Option<Stair>>, AllocError>
    requires inside { All (λ n. n < length stairs.now) numbers.now }
    requires range { AreAllStairs stairs.now }
    ensures same { IfOk result (λ v. v.items ≡ map (λ n. stair_in stairs.now n) numbers.now) }
    ensures range { IfOk result (λ v. AreAllStairs v.items) }
{
    let mut found = Vec::with_capacity(alloc, numbers.len())?;
    for n in numbers {
        found.push(stairs[*n as usize])?;
    }
    Ok(found)
}

/// These spots of a queue, by their sources.
pub(crate) fn groups_of(
    alloc: Global,
    spots: &[Spot],
    numbers: &[u32],
    stairs: &[Option<Stair>],
) -> Result<Vec<Group>, AllocError>
    requires inside { All (λ n. n < length spots.now) numbers.now }
    requires stairs { length stairs.now ≡ length spots.now }
    requires range { AreAllStairs stairs.now }
    ensures { IfOk result (λ v. v.items ≡ grouped spots.now (λ n. line_of (stair_in stairs.now n)) numbers.now) }
{
    let near = spots_at(alloc, spots, numbers)?;
    let own = stairs_at(alloc, stairs, numbers)?;
    let mut groups = Vec::with_capacity(alloc, numbers.len())?;
    for place in 0..numbers.len() {
        let line = line_by(&own, place);
        add_group(&mut groups, group_of_one(near[place], line))?;
    }
    Ok(groups)
}

/// The longest frame of some groups, in bits.
pub(crate) fn longest_in(groups: &[Group]) -> u64
    ensures { result ≡ longest_group groups.now }
{
    let mut longest = 0;
    for group in groups {
        longest = greater(longest, group.longest);
    }
    longest
}
