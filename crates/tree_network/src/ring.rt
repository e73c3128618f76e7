//! The ring among ports each of which waits for one of them.

ghost use Rattle.std.specs.Prelude.{◌≡◌, ◌<◌, ◌+◌, ◌≤◌, ◌++◌, ◌∷◌, [], ℕ, All, length, get_or, set, reverse, IfOk, MatchOption};
ghost use Rattle.tree_network.specs.Lists.{lists_of, AreByPort};
ghost use Rattle.tree_network.specs.Rings.{IsToldRing, turned_round};
ghost use Rattle.tree_network.specs.Spots.{spot_at};
ghost use Rattle.tree_network.specs.Turns.{ComesLate, NoneComesLate, IsFree, IsFirstFree, IsLateFrom, IsFirstLateFrom, IsLoopFrom};
ghost use Rattle.tree_network.specs.Turns.{AreStuck, AreEndless, FindsPlace, AreNoted, RiseBySource};

use crate::spots::Spot;
use std::alloc::{AllocError, Global};

/// The place of a port in a list, of which the places are noted by port.
fn place_in(ports: &[usize], places: &[usize], port: usize) -> Option<usize>
    requires inside { port < length places.now }
    requires noted { AreNoted ports.now places.now }
    ensures { FindsPlace ports.now port result }
{
    let place = places[port];
    if place >= ports.len() {
        return None;
    }
    if ports[place] != port {
        return None;
    }
    Some(place)
}

/// Notes the place of a port.
fn note(places: &mut Vec<usize>, port: usize, place: usize)
    requires { port < length places.old.items }
    ensures { places.new.items ≡ set places.old.items port place }
{
    places[port] = place;
}

/// The port from which frames come to a spot of this source, where there is one that is not done.
fn late_source(source: usize, is_done: &[bool]) -> Option<usize>
    requires { source ≤ length is_done.now }
    ensures { MatchOption result (NoneComesLate is_done.now source) (λ a. ComesLate is_done.now source a) }
{
    if source == 0 {
        return None;
    }
    if is_done[source - 1] {
        return None;
    }
    Some(source - 1)
}

/// The least port that is not done and from which frames come to these spots, which stand in the order of their sources.
fn waits_for(spots: &[Spot], numbers: &[u32], is_done: &[bool]) -> Option<usize>
    requires inside { All (λ n. n < length spots.now) numbers.now }
    requires from { (n : ℕ) → n < length spots.now → (spot_at spots.now n).source ≤ length is_done.now }
    requires rise { RiseBySource spots.now numbers.now }
    ensures { MatchOption result ((a : ℕ) → ¬ (IsLateFrom spots.now is_done.now numbers.now a))
        (λ a. IsFirstLateFrom spots.now is_done.now numbers.now a) }
{
    for n in numbers {
        if let Some(port) = late_source(spots[*n as usize].source as usize, is_done) {
            return Some(port);
        }
    }
    None
}

/// From a port to the least that it waits for, until one comes again: the ports from that one on.
fn loop_back(
    alloc: Global,
    spots: &[Spot],
    at: &[Vec<u32>],
    is_done: &[bool],
    start: usize,
) -> Result<Vec<usize>, AllocError>
    requires at { AreByPort spots.now (length is_done.now) (length is_done.now + 1) (lists_of at.now) }
    requires from { (n : ℕ) → n < length spots.now → (spot_at spots.now n).source ≤ length is_done.now }
    requires stuck { AreStuck spots.now is_done.now }
    requires endless { AreEndless spots.now is_done.now }
    requires start { IsFree is_done.now start }
    ensures { IfOk result (λ v. IsLoopFrom spots.now start v.items) }
{
    let mut places = vec![in alloc; 0; is_done.len()]?;
    let mut seen = Vec::new(alloc);
    let mut port = start;
    loop {
        if let Some(place) = place_in(&seen, &places, port) {
            return Vec::from_slice(alloc, &seen[place..]);
        }
        note(&mut places, port, seen.len());
        seen.push(port)?;
        match waits_for(spots, &at[port], is_done) {
            None => unreachable!(),
            Some(before) => port = before,
        }
    }
}

/// The other way round, and back to the last of them.
fn turned(alloc: Global, ports: &[usize]) -> Result<Vec<usize>, AllocError>
    requires { 0 < length ports.now }
    ensures { IfOk result (λ v. v.items ≡ turned_round ports.now) }
{
    let mut ring = Vec::with_capacity(alloc, ports.len() + 1)?;
    ring.extend_from_slice(ports)?;
    ring.push(ports[0])?;
    ring.reverse();
    Ok(ring)
}

/// The first port that is not done.
fn first_free(is_done: &[bool]) -> Option<usize>
    ensures { MatchOption result ((s : ℕ) → ¬ (IsFree is_done.now s)) (λ s. IsFirstFree is_done.now s) }
{
    is_done.iter().position(|done| !*done)
}

/// The ring among the ports that are not done, each of which waits for one of them.
pub(crate) fn ring_of(
    alloc: Global,
    spots: &[Spot],
    at: &[Vec<u32>],
    is_done: &[bool],
) -> Result<Vec<usize>, AllocError>
    requires at { AreByPort spots.now (length is_done.now) (length is_done.now + 1) (lists_of at.now) }
    requires from { (n : ℕ) → n < length spots.now → (spot_at spots.now n).source ≤ length is_done.now }
    requires stuck { AreStuck spots.now is_done.now }
    requires endless { AreEndless spots.now is_done.now }
    requires some { ¬ ((s : ℕ) → ¬ (IsFree is_done.now s)) }
    ensures { IfOk result (λ v. IsToldRing spots.now v.items) }
{
    match first_free(is_done) {
        None => unreachable!(),
        Some(start) => {
            let ports = loop_back(alloc, spots, at, is_done, start)?;
            turned(alloc, &ports)
        }
    }
}
