//! Lists of spots by their numbers: by where frames come from, and by port.

ghost use Rattle.std.specs.Prelude.{◌≡◌, [], ◌<◌, ◌≤◌, ◌+◌, ◌^◌, ◌++◌, ◌∷◌, ◌==◌, ℕ, All, filter, length, replicate, set, IfOk, OnOk};
ghost use Rattle.tree_network.specs.Lists.{lists_of, list_at, number_at, ports_in, AreBySource, AreByPort};
ghost use Rattle.tree_network.specs.Spots.{spot_at};

use crate::spots::Spot;
use std::alloc::{AllocError, Global};

/// How many spots have each source.
fn source_counts(alloc: Global, spots: &[Spot], sources: usize) -> Result<Vec<usize>, AllocError>
    requires { (n : ℕ) → n < length spots.now → (spot_at spots.now n).source < sources }
    ensures { IfOk result (λ v. length v.items ≡ sources) }
{
    let mut counts = vec![in alloc; 0usize; sources]?;
    for spot in spots {
        let source = spot.source as usize;
        counts[source] = counts[source].saturating_add(1);
    }
    Ok(counts)
}

/// How many spots each port has.
fn port_counts(alloc: Global, spots: &[Spot], ports: usize) -> Result<Vec<usize>, AllocError>
    requires { (n : ℕ) → n < length spots.now → (spot_at spots.now n).port < ports }
    ensures { IfOk result (λ v. length v.items ≡ ports) }
{
    let mut counts = vec![in alloc; 0usize; ports]?;
    for spot in spots {
        let port = spot.port as usize;
        counts[port] = counts[port].saturating_add(1);
    }
    Ok(counts)
}

/// An empty list for each count, with room for so many numbers.
fn empty_lists(alloc: Global, counts: &[usize]) -> Result<Vec<Vec<u32>>, AllocError>
    ensures { IfOk result (λ v. lists_of v.items ≡ replicate (length counts.now) []) }
{
    let mut lists = Vec::with_capacity(alloc, counts.len())?;
    for count in counts {
        let list = Vec::with_capacity(alloc, *count)?;
        lists.push(list)?;
    }
    Ok(lists)
}

/// An empty list for each source, with room for its spots.
fn source_lists(alloc: Global, spots: &[Spot], sources: usize) -> Result<Vec<Vec<u32>>, AllocError>
    requires { (n : ℕ) → n < length spots.now → (spot_at spots.now n).source < sources }
    ensures { IfOk result (λ v. lists_of v.items ≡ replicate sources []) }
{
    let counts = source_counts(alloc, spots, sources)?;
    empty_lists(alloc, &counts)
}

/// An empty list for each port, with room for its spots.
fn port_lists(alloc: Global, spots: &[Spot], ports: usize) -> Result<Vec<Vec<u32>>, AllocError>
    requires { (n : ℕ) → n < length spots.now → (spot_at spots.now n).port < ports }
    ensures { IfOk result (λ v. lists_of v.items ≡ replicate ports []) }
{
    let counts = port_counts(alloc, spots, ports)?;
    empty_lists(alloc, &counts)
}

/// Adds a number to list k.
fn add_to(lists: &mut Vec<Vec<u32>>, k: usize, number: u32) -> Result<(), AllocError>
    requires { k < length lists.old.items }
    ensures { let old = lists_of lists.old.items in OnOk result (lists_of lists.new.items ≡ set old k (list_at old k ++ number ∷ [])) }
{
    lists[k].push(number)?;
    Ok(())
}

/// The numbers of the spots of each source.
pub(crate) fn by_source(
    alloc: Global,
    spots: &[Spot],
    sources: usize,
) -> Result<Vec<Vec<u32>>, AllocError>
    requires few { length spots.now ≤ 2 ^ 32 }
    requires sources { (n : ℕ) → n < length spots.now → (spot_at spots.now n).source < sources }
    ensures { IfOk result (λ v. AreBySource spots.now sources (lists_of v.items)) }
{
    let mut lists = source_lists(alloc, spots, sources)?;
    for n in 0..spots.len() {
        let number = n as u32;
        add_to(&mut lists, spots[n].source as usize, number)?;
    }
    Ok(lists)
}

/// The ports of the spots alone: these few bytes stay near, where the spots are looked at all over their list.
pub(crate) fn ports_of(alloc: Global, spots: &[Spot]) -> Result<Vec<u16>, AllocError>
    ensures { IfOk result (λ v. v.items ≡ ports_in spots.now) }
{
    let mut ports = Vec::with_capacity(alloc, spots.len())?;
    for spot in spots {
        ports.push(spot.port)?;
    }
    Ok(ports)
}

/// Adds the numbers, each to the list of its port.
fn add_spots(
    lists: &mut Vec<Vec<u32>>,
    spot_ports: &[u16],
    numbers: &[u32],
) -> Result<(), AllocError>
    requires inside { All (λ n. n < length spot_ports.now) numbers.now }
    requires ports { (n : ℕ) → n < length spot_ports.now → number_at spot_ports.now n < length lists.old.items }
    ensures count { OnOk result (length lists.new.items ≡ length lists.old.items) }
    ensures added { OnOk result ((s : ℕ) → s < length lists.old.items → list_at (lists_of lists.new.items) s
        ≡ list_at (lists_of lists.old.items) s ++ filter (λ n. number_at spot_ports.now n == s) numbers.now) }
{
    for n in numbers {
        add_to(lists, spot_ports[*n as usize] as usize, *n)?;
    }
    Ok(())
}

/// The numbers of the spots at each port, in the order of their sources.
pub(crate) fn by_port(
    alloc: Global,
    spots: &[Spot],
    spot_ports: &[u16],
    ports: usize,
    sources: &[Vec<u32>],
) -> Result<Vec<Vec<u32>>, AllocError>
    requires own { spot_ports.now ≡ ports_in spots.now }
    requires sources { AreBySource spots.now (length sources.now) (lists_of sources.now) }
    requires ports { (n : ℕ) → n < length spots.now → (spot_at spots.now n).port < ports }
    ensures { IfOk result (λ v. AreByPort spots.now ports (length sources.now) (lists_of v.items)) }
{
    let mut lists = port_lists(alloc, spots, ports)?;
    for numbers in sources {
        add_spots(&mut lists, spot_ports, numbers)?;
    }
    Ok(lists)
}
