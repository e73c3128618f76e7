//! What arrives at the queues of a port: as stairs, and by their lines.

ghost use Rattle.std.specs.Prelude.{◌≡◌, ℕ, ◌<◌, ◌++◌, All, filter, length, map, IfOk, OnOk};
ghost use Rattle.std.specs.List.{sum_by};
ghost use Rattle.tree_network.specs.Networks.{IsNetwork};
ghost use Rattle.tree_network.specs.Plans.{IsPlanOf};
ghost use Rattle.tree_network.specs.Spots.{spots_of};
ghost use Rattle.arrival_stairs.specs.Views.{bunch_of, bunches};
ghost use Rattle.port_bounds.specs.Incoming.{incoming_of};
ghost use Rattle.port_bounds.specs.StairsIncoming.{stairs_of};
ghost use Rattle.tree_bounds.specs.Bunches.{arriving_of, arriving_of_groups, bunch_of_group, stair_list, stairs_among};
ghost use Rattle.tree_bounds.specs.Coming.{IsComing, IsGrouped, is_of_queue};
ghost use Rattle.tree_bounds.specs.Grouping.{AreInGroups};
ghost use Rattle.tree_bounds.specs.Groups.{incoming_of_groups, pace_line};
ghost use Rattle.tree_bounds.specs.Onward.{stair_in};
ghost use Rattle.tree_bounds.specs.Parts.{IsOfNetwork};
ghost use Rattle.tree_bounds.specs.Solved.{AreAllStairs};

use crate::groups::{Group, groups_of};
use crate::incoming::{arrivals, pace_of};
use arrival_stairs::{Bundle, Stair};
use port_bounds::{Arrivals, StairArrivals};
use std::alloc::{AllocError, Global};
use tree_network::{Network, Plan, Spot};

/// What arrives at some queues of a port.
#[derive(Drop)]
pub(crate) struct Coming {
    /// By lines.
    pub(crate) lines: Vec<Arrivals>,
    /// As stairs.
    pub(crate) stairs: Vec<StairArrivals>,
}

/// The spots of a queue, the groups in which their links come, and what these bring by lines.
#[derive(Drop)]
struct Grouped {
    /// The numbers of the spots, one group after the other.
    numbers: Vec<u32>,
    groups: Vec<Group>,
    lines: Arrivals,
}

/// Adds the stair, if there is one.
fn keep(stairs: &mut Vec<Stair>, stair: Option<Stair>) -> Result<(), AllocError>
    ensures { OnOk result (stairs.new.items ≡ stairs.old.items ++ stair_list stair) }
{
    if let Some(stair) = stair {
        stairs.push(stair)?;
    }
    Ok(())
}

/// The numbers of the spots of queue q among these.
fn of_queue(
    alloc: Global,
    spots: &[Spot],
    numbers: &[u32],
    q: usize,
) -> Result<Vec<u32>, AllocError>
    requires { All (λ n. n < length spots.now) numbers.now }
    ensures { IfOk result (λ v. v.items ≡ filter (is_of_queue spots.now q) numbers.now) }
{
    let mut found = Vec::with_capacity(alloc, numbers.len())?;
    for n in numbers {
        if spots[*n as usize].queue as usize == q {
            found.push(*n)?;
        }
    }
    Ok(found)
}

/// The stairs of these spots, of those that have one.
fn stairs_of_spots(
    alloc: Global,
    stairs: &[Option<Stair>],
    numbers: &[u32],
) -> Result<Vec<Stair>, AllocError>
    requires { All (λ n. n < length stairs.now) numbers.now }
    ensures { IfOk result (λ v. v.items ≡ stairs_among (λ n. stair_in stairs.now n) numbers.now) }
{
    let mut found = Vec::with_capacity(alloc, numbers.len())?;
    for n in numbers {
        keep(&mut found, stairs[*n as usize])?;
    }
    Ok(found)
}

/// The links of a group, of which these are the spots.
fn bundle(
    alloc: Global,
    network: &Network,
    stairs: &[Option<Stair>],
    numbers: &[u32],
    group: Group,
) -> Result<Bundle, AllocError>
    requires inside { All (λ n. n < length stairs.now) numbers.now }
    requires group { IsOfNetwork network.now group }
    ensures { IfOk result (λ b. bunch_of b
        ≡ record { stairs = stairs_among (λ n. stair_in stairs.now n) numbers.now; pace = pace_line network.now group.longest group.source }) }
{
    let found = stairs_of_spots(alloc, stairs, numbers)?;
    Ok(Bundle {
        stairs: found,
        pace: pace_of(network, group.longest, group.source),
    })
}

/// The links of each group, where their spots stand one group after the other.
fn bundles(
    alloc: Global,
    network: &Network,
    stairs: &[Option<Stair>],
    numbers: &[u32],
    groups: &[Group],
) -> Result<Vec<Bundle>, AllocError>
    requires inside { All (λ n. n < length stairs.now) numbers.now }
    requires groups { All (IsOfNetwork network.now) groups.now }
    requires count { sum_by (λ g. g.count) groups.now ≡ length numbers.now }
    ensures { IfOk result (λ v. (s q : ℕ) → AreInGroups (spots_of network.now) s q groups.now numbers.now
        → bunches v.items ≡ map (bunch_of_group network.now (spots_of network.now) (λ n. stair_in stairs.now n) s q) groups.now) }
{
    let mut all = Vec::with_capacity(alloc, groups.len())?;
    let mut first = 0;
    for group in groups {
        let end = first + group.count;
        all.push(bundle(alloc, network, stairs, &numbers[first..end], *group)?)?;
        first = end;
    }
    Ok(all)
}

/// What arrives at a queue as stairs, whose spots these are and whose links come in these groups, and so by lines.
fn stair_arrivals(
    alloc: Global,
    network: &Network,
    stairs: &[Option<Stair>],
    numbers: &[u32],
    groups: &[Group],
    lines: &Arrivals,
) -> Result<StairArrivals, AllocError>
    requires inside { All (λ n. n < length stairs.now) numbers.now }
    requires groups { All (IsOfNetwork network.now) groups.now }
    requires count { sum_by (λ g. g.count) groups.now ≡ length numbers.now }
    requires lines { incoming_of lines.now ≡ incoming_of_groups network.now groups.now }
    ensures { IfOk result (λ a. (s q : ℕ) → AreInGroups (spots_of network.now) s q groups.now numbers.now
        → arriving_of (stairs_of a) ≡ arriving_of_groups network.now (spots_of network.now) (λ n. stair_in stairs.now n) s q groups.now) }
{
    match &lines.parts {
        None => Ok(StairArrivals {
            bundles: None,
            longest: lines.longest,
        }),
        Some(_parts) => {
            let all = bundles(alloc, network, stairs, numbers, groups)?;
            Ok(StairArrivals {
                bundles: Some(all),
                longest: lines.longest,
            })
        }
    }
}

/// The spots of queue q of a port, and what arrives there by lines.
fn grouped_at(
    alloc: Global,
    network: &Network,
    plan: &Plan,
    stairs: &[Option<Stair>],
    port: usize,
    q: usize,
) -> Result<Grouped, AllocError>
    requires network { IsNetwork network.now }
    requires plan { IsPlanOf network.now plan.now }
    requires stairs { length stairs.now ≡ length plan.now.spots.items }
    requires range { AreAllStairs stairs.now }
    requires port { port < length network.now.ports.items }
    ensures { IfOk result (λ g. IsGrouped network.now (λ n. stair_in stairs.now n) port q g.numbers.items g.groups.items g.lines) }
{
    let numbers = of_queue(alloc, &plan.spots, &plan.at[port], q)?;
    let groups = groups_of(alloc, &plan.spots, &numbers, stairs)?;
    let lines = arrivals(alloc, network, &groups)?;
    Ok(Grouped {
        numbers,
        groups,
        lines,
    })
}

/// What arrives at each of so many queues of a port.
pub(crate) fn all_arrivals(
    alloc: Global,
    network: &Network,
    plan: &Plan,
    stairs: &[Option<Stair>],
    port: usize,
    count: usize,
) -> Result<Coming, AllocError>
    requires network { IsNetwork network.now }
    requires plan { IsPlanOf network.now plan.now }
    requires stairs { length stairs.now ≡ length plan.now.spots.items }
    requires range { AreAllStairs stairs.now }
    requires port { port < length network.now.ports.items }
    ensures { IfOk result (λ c. IsComing network.now (λ n. stair_in stairs.now n) port count c.lines.items c.stairs.items) }
{
    let mut lines = Vec::with_capacity(alloc, count)?;
    let mut all_stairs = Vec::with_capacity(alloc, count)?;
    for q in 0..count {
        let found = grouped_at(alloc, network, plan, stairs, port, q)?;
        let come = stair_arrivals(
            alloc,
            network,
            stairs,
            &found.numbers,
            &found.groups,
            &found.lines,
        )?;
        all_stairs.push(come)?;
        lines.push(found.lines)?;
    }
    Ok(Coming {
        lines,
        stairs: all_stairs,
    })
}
