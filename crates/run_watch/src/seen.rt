//! What one server sees of a run: the packets that arrive there and the works, as spans, and the times of its leaves.

ghost use Rattle.std.specs.Prelude.{◌≡◌, [], IfOk, OnOk, slice_index};
ghost use Rattle.run_watch.specs.Seen.{at_once, work_in, works_at, leave_in, leaves_at, sizes_after, arrival_in, arrivals_at};

use crate::span::Span;
use fraction128::Frac;
use run_laws::{Step, whole};
use std::alloc::{AllocError, Global};

/// The work of a server that a step is, if it is one.
fn work_of(step: &Step, server: u32) -> Option<Span>
    ensures { result ≡ work_in server step.now }
{
    match step {
        Step::Work {
            server: at,
            packet: _,
            start,
            end,
            bits,
        } => {
            if *at == server {
                Some(Span {
                    start: *start,
                    end: *end,
                    bits: *bits,
                })
            } else {
                None
            }
        }
        _ => None,
    }
}

/// The works of a server.
pub(crate) fn works_of(alloc: Global, steps: &[Step], server: u32) -> Result<Vec<Span>, AllocError>
    ensures { IfOk result (λ v. v.items ≡ works_at server steps.now) }
{
    let mut found = Vec::new(alloc);
    for step in steps {
        if let Some(work) = work_of(step, server) {
            found.push(work)?;
        }
    }
    Ok(found)
}

/// The time at which a packet leaves a server by a step, if one does.
fn leave_of(step: &Step, server: u32) -> Option<Frac>
    ensures { result ≡ leave_in server step.now }
{
    match step {
        Step::Leave {
            server: at,
            packet: _,
            time,
        } => { if *at == server { Some(*time) } else { None } }
        _ => None,
    }
}

/// The times at which packets leave a server.
pub(crate) fn leaves_of(alloc: Global, steps: &[Step], server: u32) -> Result<Vec<Frac>, AllocError>
    ensures { IfOk result (λ v. v.items ≡ leaves_at server steps.now) }
{
    let mut found = Vec::new(alloc);
    for step in steps {
        if let Some(time) = leave_of(step, server) {
            found.push(time)?;
        }
    }
    Ok(found)
}

/// The bits of the packets that have entered, with a step more.
fn note_size(sizes: &mut Vec<u32>, step: &Step) -> Result<(), AllocError>
    ensures { OnOk result (sizes.new.items ≡ sizes_after sizes.old.items step.now) }
{
    match step {
        Step::Enter {
            flow: _,
            packet: _,
            time: _,
            bits,
        } => {
            sizes.push(*bits)?;
            Ok(())
        }
        _ => Ok(()),
    }
}

/// The number in a list, 0 where there is none.
fn number_at(numbers: &[u32], place: u32) -> u32
    ensures { result ≡ slice_index numbers.now place }
{
    numbers.get(place as usize).copied().unwrap_or(0)
}

/// A packet that comes all at once.
fn packet(time: Frac, bits: u32) -> Span
    ensures { result ≡ at_once time bits }
{
    Span {
        start: time,
        end: time,
        bits: whole(bits),
    }
}

/// The packet that arrives at a server by a step, if one does.
fn arrival_of(step: &Step, firsts: &[u32], server: u32, sizes: &[u32]) -> Option<Span>
    ensures { result ≡ arrival_in firsts.now server sizes.now step.now }
{
    match step {
        Step::Enter {
            flow,
            packet: number,
            time,
            bits: _,
        } => {
            if number_at(firsts, *flow) == server {
                Some(packet(*time, number_at(sizes, *number)))
            } else {
                None
            }
        }
        Step::Reach {
            server: at,
            packet: number,
            time,
        } => {
            if *at == server {
                Some(packet(*time, number_at(sizes, *number)))
            } else {
                None
            }
        }
        _ => None,
    }
}

/// The packets that arrive at a server. `firsts` has for each flow the first server of its path.
pub(crate) fn arrivals_of(
    alloc: Global,
    steps: &[Step],
    firsts: &[u32],
    server: u32,
) -> Result<Vec<Span>, AllocError>
    ensures { IfOk result (λ v. v.items ≡ arrivals_at firsts.now server [] steps.now) }
{
    let mut sizes = Vec::new(alloc);
    let mut found = Vec::new(alloc);
    for step in steps {
        note_size(&mut sizes, step)?;
        if let Some(arrival) = arrival_of(step, firsts, server, &sizes) {
            found.push(arrival)?;
        }
    }
    Ok(found)
}
