//! What arrives at the queues of a port.

ghost use Rattle.std.specs.Prelude.{◌≡◌, ◌++◌, max, IfOk};
ghost use Rattle.std.specs.Option.{option_map};
ghost use Rattle.port_bounds.specs.Incoming.{incoming, joined_parts, longest_frame_of, longest_frames_of, AddsParts};
ghost use Rattle.port_bounds.specs.Ranges.{AreInRange};

use arrival_lines::Part;
use std::alloc::{AllocError, Global};

/// The grains of a bit.
pub(crate) const GRAINS: u64 = 1024;

/// What arrives at a queue.
#[derive(Drop)]
pub struct Arrivals {
    /// Its parts; none where nothing bounds them.
    pub parts: Option<Vec<Part>>,
    /// The longest frame of its links, in bits; 0 where there is none.
    pub longest: u64,
}

/// Adds the parts of the queues, and says whether all of them are bounded.
fn add_parts(all: &mut Vec<Part>, queues: &[Arrivals]) -> Result<bool, AllocError>
    ensures { IfOk result (λ known. AddsParts (incoming queues.now) all.old.items all.new.items known) }
{
    for queue in queues {
        match &queue.parts {
            None => return Ok(false),
            Some(parts) => all.extend_from_slice(parts)?,
        }
    }
    Ok(true)
}

/// The parts of the queues before and behind together; none where one of them is bounded by nothing.
pub(crate) fn together(
    alloc: Global,
    before: &[Arrivals],
    behind: &[Arrivals],
) -> Result<Option<Vec<Part>>, AllocError>
    ensures { IfOk result (λ found. option_map (λ v. v.items) found ≡ joined_parts (incoming before.now ++ incoming behind.now)) }
{
    let mut all = Vec::new(alloc);
    if !add_parts(&mut all, before)? {
        return Ok(None);
    }
    if !add_parts(&mut all, behind)? {
        return Ok(None);
    }
    Ok(Some(all))
}

/// The greater one.
fn greater(a: u64, b: u64) -> u64
    ensures { result ≡ max a b }
{
    if a < b { b } else { a }
}

/// The longest frame of some queues, in bits.
pub(crate) fn longest_of(queues: &[Arrivals]) -> u64
    ensures { result ≡ longest_frame_of (incoming queues.now) }
{
    let mut longest = 0;
    for queue in queues {
        longest = greater(longest, queue.longest);
    }
    longest
}

/// The longest frames of the queues together, in bits.
pub(crate) fn longest_together(queues: &[Arrivals]) -> u64
    requires { AreInRange (incoming queues.now) }
    ensures { result ≡ longest_frames_of (incoming queues.now) }
{
    let mut sum = 0;
    for queue in queues {
        sum += queue.longest;
    }
    sum
}
