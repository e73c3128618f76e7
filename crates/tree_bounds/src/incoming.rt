//! What arrives at a queue by lines: its parts.

ghost use Rattle.std.specs.Prelude.{◌≡◌, ◌<◌, ◌≤◌, ◌+◌, ◌^◌, None, true, All, length, map, IfOk, MatchOption};
ghost use Rattle.std.specs.List.{list_all};
ghost use Rattle.std.specs.Option.{option_map};
ghost use Rattle.tree_network.specs.Networks.{IsNetwork, longest_frame};
ghost use Rattle.port_bounds.specs.Incoming.{incoming_of};
ghost use Rattle.tree_bounds.specs.Groups.{are_bounded, incoming_of_groups, pace_line, part_of, parts_in};
ghost use Rattle.tree_bounds.specs.Parts.{IsNoPart, IsOfNetwork, IsPartOf};

use crate::groups::{Group, longest_in};
use crate::onward::GRAINS;
use arrival_lines::{Line, Part};
use port_bounds::Arrivals;
use std::alloc::{AllocError, Global};
use tree_network::Network;

/// Where the links of a queue bring so many grains at once, nothing is promised of it.
const MOST_BURST: u128 = 1 << 58;

/// No port sends so many grains a second: a queue of such a load is never served.
const MOST_RATE: u128 = 1 << 50;

/// The line of the pace of the port from which frames of this source come; none where they begin.
pub(crate) fn pace_of(network: &Network, longest: u64, source: usize) -> Option<Line>
    requires source { source ≤ length network.now.ports.items }
    requires longest { longest ≤ longest_frame }
    ensures { result ≡ pace_line network.now longest source }
{
    if source == 0 {
        return None;
    }
    Some(Line {
        burst: longest * GRAINS,
        rate: network.ports[source - 1].pace,
    })
}

/// The group as a part, where each of its links has a line and its numbers fit 64 bits.
fn part(network: &Network, group: Group) -> Option<Part>
    requires { IsOfNetwork network.now group }
    ensures { MatchOption result (IsNoPart group) (IsPartOf network.now group) }
{
    if !group.known {
        return None;
    }
    if group.burst > u64::MAX as u128 {
        return None;
    }
    if group.rate > u64::MAX as u128 {
        return None;
    }
    Some(Part {
        sum: Line {
            burst: group.burst as u64,
            rate: group.rate as u64,
        },
        pace: pace_of(network, group.longest, group.source),
    })
}

/// Whether the bursts and the rates of the parts' links together are within their limits.
fn are_within(parts: &[Part]) -> bool
    ensures { result ≡ are_bounded parts.now }
{
    let mut bursts: u128 = 0;
    let mut rates: u128 = 0;
    for part in parts {
        bursts += part.sum.burst as u128;
        rates += part.sum.rate as u128;
    }
    bursts < MOST_BURST && rates < MOST_RATE
}

/// All groups as parts, where each is one.
fn all_parts(
    alloc: Global,
    network: &Network,
    groups: &[Group],
) -> Result<Option<Vec<Part>>, AllocError>
    requires { All (IsOfNetwork network.now) groups.now }
    ensures { IfOk result (λ found. MatchOption found (parts_in network.now groups.now ≡ None)
        (λ v. (v.items ≡ map (part_of network.now) groups.now) × (list_all (λ g. g.known) groups.now ≡ true))) }
{
    let mut parts = Vec::with_capacity(alloc, groups.len())?;
    for group in groups {
        match part(network, *group) {
            None => return Ok(None),
            Some(part) => parts.push(part)?,
        }
    }
    Ok(Some(parts))
}

/// The parts of the groups; none where nothing bounds them.
fn parts_of(
    alloc: Global,
    network: &Network,
    groups: &[Group],
) -> Result<Option<Vec<Part>>, AllocError>
    requires { All (IsOfNetwork network.now) groups.now }
    ensures { IfOk result (λ found. option_map (λ v. v.items) found ≡ parts_in network.now groups.now) }
{
    match all_parts(alloc, network, groups)? {
        None => Ok(None),
        Some(parts) => {
            if are_within(&parts) {
                Ok(Some(parts))
            } else {
                Ok(None)
            }
        }
    }
}

/// What arrives at a queue by lines, whose links come in these groups.
pub(crate) fn arrivals(
    alloc: Global,
    network: &Network,
    groups: &[Group],
) -> Result<Arrivals, AllocError>
    requires { All (IsOfNetwork network.now) groups.now }
    ensures { IfOk result (λ a. incoming_of a ≡ incoming_of_groups network.now groups.now) }
{
    let parts = parts_of(alloc, network, groups)?;
    Ok(Arrivals {
        parts,
        longest: longest_in(groups),
    })
}
