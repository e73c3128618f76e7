//! A cycle among servers that all wait.

ghost use Rattle.std.specs.Prelude.{◌≡◌, ℕ, ◌<◌, ◌≤◌, length, IfOk, MatchOption};
ghost use Rattle.upp_limits.specs.Windows.{IsLeast};
ghost use Rattle.net_model.specs.Walks.{IsRingBefore};
ghost use Rattle.net_model.specs.net_graph.Waits.{lists_of, AreBusy, IsFree, IsPlaced};
ghost use Rattle.net_model.specs.net_graph.Loops.{AreFirsts, FindsPlace, IsAwaited, IsFirst, IsFirstAwaited};
ghost use Rattle.net_model.specs.net_graph.Loops.{IsFromLeast, IsLeastPlace, IsLoopBack, IsTrap};

use std::alloc::{AllocError, Global};

fn place_in(servers: &[u32], server: u32) -> Option<usize>
    ensures { FindsPlace servers.now server result }
{
    servers.iter().position(|s| *s == server)
}

// The least server that is not placed and for which this one waits.
fn first_awaited(before: &[Vec<u32>], is_placed: &[bool], waiting: usize) -> Option<u32>
    requires within { waiting < length before.now }
    requires few { length is_placed.now ≤ 64 }
    ensures { MatchOption result
        ((a : ℕ) → ¬ (IsAwaited is_placed.now (lists_of before.now) waiting a))
        (λ a. IsFirstAwaited is_placed.now (lists_of before.now) a waiting) }
{
    for server in 0..is_placed.len() {
        if !is_placed[server] && before[waiting].contains(&(server as u32)) {
            return Some(server as u32);
        }
    }
    None
}

// For each server the least one that is not placed and for which it waits.
fn firsts_awaited(
    alloc: Global,
    before: &[Vec<u32>],
    is_placed: &[bool],
) -> Result<Vec<Option<u32>>, AllocError>
    requires few { length is_placed.now ≤ 64 }
    ensures { IfOk result (λ v. (length v.items ≡ length before.now)
        × AreFirsts is_placed.now (lists_of before.now) v.items) }
{
    let mut firsts = Vec::with_capacity(alloc, before.len())?;
    for server in 0..before.len() {
        firsts.push(first_awaited(before, is_placed, server))?;
    }
    Ok(firsts)
}

// From a server to the first that it waits for, until one comes again: the servers from that one on.
fn loop_back(alloc: Global, firsts: &[Option<u32>], start: u32) -> Result<Vec<u32>, AllocError>
    requires { IsTrap firsts.now start }
    ensures { IfOk result (λ v. IsLoopBack firsts.now start v.items) }
{
    let mut seen = Vec::new(alloc);
    let mut at = start;
    loop {
        if let Some(place) = place_in(&seen, at) {
            return Vec::from_slice(alloc, &seen[place..]);
        }
        seen.push(at)?;
        match firsts[at as usize] {
            Some(first) => at = first,
            None => unreachable!(),
        }
    }
}

fn place_of_least(servers: &[u32]) -> usize
    requires { 0 < length servers.now }
    ensures { IsLeastPlace servers.now result }
{
    let mut least = 0;
    for place in 1..servers.len() {
        if servers[place] < servers[least] {
            least = place;
        }
    }
    least
}

// The other way round, from the least server on.
fn from_least(alloc: Global, servers: &[u32]) -> Result<Vec<u32>, AllocError>
    requires { 0 < length servers.now }
    ensures { IfOk result (λ v. IsFromLeast servers.now v.items) }
{
    let least = place_of_least(servers);
    let mut walk = Vec::with_capacity(alloc, servers.len() + 1)?;
    walk.extend_from_slice(&servers[least..])?;
    walk.extend_from_slice(&servers[..least + 1])?;
    walk.reverse();
    Ok(walk)
}

// The cycle to which one comes from a server, each time to the first that is waited for.
fn cycle_from(alloc: Global, firsts: &[Option<u32>], start: u32) -> Result<Vec<u32>, AllocError>
    requires { IsTrap firsts.now start }
    ensures { IfOk result (λ v. IsRingBefore (λ s. s ≡ start) (IsFirst firsts.now) v.items) }
{
    let servers = loop_back(alloc, firsts, start)?;
    from_least(alloc, &servers)
}

fn first_free(is_placed: &[bool]) -> Option<usize>
    ensures { MatchOption result
        ((s : ℕ) → ¬ (IsFree is_placed.now s))
        (λ s. IsLeast (IsFree is_placed.now) s) }
{
    is_placed.iter().position(|placed| !*placed)
}

// The cycle among servers that are not placed, where each of them waits for one of them: from the least of them, back
// each time to the least that is waited for.
pub(crate) fn cycle_of(
    alloc: Global,
    before: &[Vec<u32>],
    is_placed: &[bool],
) -> Result<Vec<u32>, AllocError>
    requires length { length before.now ≡ length is_placed.now }
    requires few { length is_placed.now ≤ 64 }
    requires busy { AreBusy is_placed.now (lists_of before.now) (length is_placed.now) }
    requires some { ¬ ((s : ℕ) → s < length is_placed.now → IsPlaced is_placed.now s) }
    ensures { IfOk result (λ v.
        IsRingBefore (IsFree is_placed.now) (IsFirstAwaited is_placed.now (lists_of before.now)) v.items) }
{
    let firsts = firsts_awaited(alloc, before, is_placed)?;
    match first_free(is_placed) {
        Some(start) => cycle_from(alloc, &firsts, start as u32),
        None => unreachable!(),
    }
}
