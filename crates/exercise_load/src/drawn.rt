//! What is drawn for the flows.

ghost use Rattle.std.specs.Prelude.{◌≡◌, ◌<◌, IfOk};
ghost use Rattle.exercise_load.specs.Draws.{state_after};
ghost use Rattle.exercise_load.specs.Drawn.{drawn_from, drawn_flows, hops_of};

use crate::draws::Draws;
use std::alloc::{AllocError, Global};

/// How many flows a workload has.
const FLOWS: u32 = 24;

/// What is drawn for a flow.
#[derive(Clone, Copy)]
pub struct DrawnFlow {
    /// Its number, from 0 to 23.
    pub number: u32,
    /// The number of its first server, from 0 to 12.
    pub first: u32,
    /// How many servers it passes, from 1 to 4, by their numbers.
    pub hops: u32,
    /// The bits of each of its packets, from 1,000 to 12,000.
    pub packet: u32,
    /// The time between two of them: 8,000, 16,000 or 32,000.
    pub period: u64,
    /// Its queue at each server that has two.
    pub queue: u32,
}

// How many servers a flow passes, by what is drawn.
fn hops_of(seed: u64, drawn: u32) -> u32
    requires { drawn < 4 }
    ensures { result ≡ hops_of seed drawn }
{
    if seed % 2 == 0 { 1 + drawn } else { 1 }
}

// The next flow. Its number is drawn from nothing.
#[tactic(auto, unfolding(crate::specs::Draws::state_after))]
fn next_flow(seed: u64, number: u32, draws: &mut Draws) -> DrawnFlow
    ensures flow { result ≡ drawn_from seed number draws.old.state }
    ensures state { draws.new.state ≡ state_after draws.old.state 5 }
{
    let first = draws.below(13) as u32;
    let hops = hops_of(seed, draws.below(4) as u32);
    let packet = 1000 * (1 + draws.below(12) as u32);
    let period = 8000 << draws.below(3);
    let queue = draws.below(2) as u32;
    DrawnFlow {
        number,
        first,
        hops,
        packet,
        period,
        queue,
    }
}

/// What is drawn for all flows of the workload of a number.
pub(crate) fn drawn_flows(alloc: Global, seed: u64) -> Result<Vec<DrawnFlow>, AllocError>
    ensures { IfOk result (λ v. v.items ≡ drawn_flows seed) }
{
    let mut draws = Draws { state: seed };
    let mut flows = Vec::with_capacity(alloc, FLOWS as usize)?;
    for number in 0..FLOWS {
        flows.push(next_flow(seed, number, &mut draws))?;
    }
    Ok(flows)
}
