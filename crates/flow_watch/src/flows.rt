//! What a flow breaks: a packet that is longer than it allows, or too many bits between two of its packets.

ghost use Rattle.std.specs.Prelude.{◌≡◌, ◌↔◌, ℕ, ◌<◌, ◌≤◌, ◌^◌, length, drop, IfOk, IfSome, IsTrue, MatchOption};
ghost use Rattle.rational.specs.Rational.{◌-ℚ◌, ◌≤ℚ◌};
ghost use Rattle.rational.specs.Extended.{◌<ₑ◌};
ghost use Rattle.upp_curve.specs.Curve.{value_at};
ghost use Rattle.upp_normal.specs.Unrolling.{IsOperandTo};
ghost use Rattle.run_laws.specs.Cards.{whole};
ghost use Rattle.flow_watch.specs.watch_laws.Entries.{entries};
ghost use Rattle.flow_watch.specs.Flows.{entering_in, NoneLonger, IsFirstLonger, FlowReads, FindsFirst, NoneCrowded, IsFirstCrowded, IsUnderLine, IsUnderPiece, KeepsBucket, TimesRiseIn, KeepsPiece, KeepsAt, IsRaised, first_time, last_time};

use crate::curve_values::{is_early, value_within};
use crate::ends::next_start;
use crate::repeats::repeated_upto;
use crate::sliding::before_upto;
use crate::stairs::kept_upto;
use crate::step_lines::whole_of;
use crate::watch_laws::Entering;
use fraction128::{Frac, Wide, difference, greater, is_less, lesser};
use rational::Extended;
use run_laws::{Step, whole};
use std::alloc::{AllocError, Global};
use upp_curve::Curve;
use upp_curve::affine_segment::{Line, Piece};

/// The packet that enters on a flow by a step, if one does.
fn entering_of(step: &Step, flow: u32) -> Option<Entering>
    ensures { result ≡ entering_in flow step.now }
{
    match step {
        Step::Enter {
            flow: of,
            packet: _,
            time,
            bits,
        } => {
            if *of == flow {
                Some(Entering {
                    time: *time,
                    bits: *bits,
                })
            } else {
                None
            }
        }
        _ => None,
    }
}

/// The packets of a flow as they enter, in their order.
pub fn entries_of(alloc: Global, steps: &[Step], flow: u32) -> Result<Vec<Entering>, AllocError>
    ensures { IfOk result (λ v. v.items ≡ entries flow steps.now) }
{
    let mut found = Vec::new(alloc);
    for step in steps {
        if let Some(entering) = entering_of(step, flow) {
            found.push(entering)?;
        }
    }
    Ok(found)
}

/// The number of the first packet that is longer.
pub fn first_too_long(entries: &[Entering], longest: u32) -> Option<usize>
    ensures { MatchOption result (NoneLonger longest entries.now) (IsFirstLonger longest entries.now) }
{
    for (k, entering) in entries.iter().enumerate() {
        if entering.bits > longest {
            return Some(k);
        }
    }
    None
}

/// Whether so many bits are more than a curve has at d.
fn is_over(arrival: &Curve, d: Frac, bits: u128) -> bool
    requires operand { IsOperandTo d arrival.now }
    requires bits { bits < 2 ^ 127 }
    ensures { IsTrue result ↔ (value_at arrival.now d <ₑ Extended.Fin (whole bits)) }
{
    match value_within(arrival, d) {
        Extended::Fin(value) => is_less(value, whole_of(bits)),
        Extended::Inf => false,
    }
}

/// The first packet from which too many bits enter up to one.
fn least_first(entries: &[Entering], arrival: &Curve, last: usize) -> Option<usize>
    requires in_range { last < length entries.now }
    requires reads { FlowReads arrival.now entries.now }
    ensures { FindsFirst (value_at arrival.now) entries.now 0 last result }
{
    let end = entries[last].time;
    let mut bits: u128 = 0;
    let mut found = None;
    for back in 0..last + 1 {
        let first = last - back;
        let entering = entries[first];
        bits += entering.bits as u128;
        if is_over(arrival, difference(end, entering.time), bits) {
            found = Some(first);
        }
    }
    found
}

/// A bucket: so many bits, and more at an even rate.
#[derive(Clone, Copy)]
pub(crate) struct Bucket {
    pub(crate) burst: Frac,
    pub(crate) rate: Frac,
}

/// The bucket of a line, and of the value at the start x, where its steps fit.
fn bucket_under(x: Frac, value: Frac, line: Line) -> Result<Bucket, Wide>
    ensures { IfOk result (λ b. IsUnderLine x value line b.burst b.rate) }
{
    let risen = Frac::mul(line.slope, x)?;
    let base = Frac::sub(value, risen)?;
    Ok(Bucket {
        burst: lesser(base, line.icept),
        rate: line.slope,
    })
}

/// A bucket that a piece is nowhere below, if one is found: of a piece that is finite and does not fall.
pub(crate) fn bucket_of(piece: &Piece) -> Option<Bucket>
    ensures { IfSome result (λ b. IsUnderPiece piece.now b.burst b.rate) }
{
    let Extended::Fin(value) = piece.at else {
        return None;
    };
    let Some(line) = piece.line else {
        return None;
    };
    if is_less(line.slope, Frac::zero()) {
        return None;
    }
    match bucket_under(piece.x, value, line) {
        Ok(bucket) => Some(bucket),
        Err(_) => None,
    }
}

/// How many bits at most enter in a window that ends with this packet, less the rate times its length; `level` is that of
/// the windows that end with the packet before, at `time`.
fn next_level(level: Frac, rate: Frac, time: Frac, entering: &Entering) -> Result<Frac, Wide>
    ensures { IfOk result (IsRaised level rate time entering.now) }
{
    let gap = Frac::sub(entering.time, time)?;
    let lost = Frac::mul(rate, gap)?;
    let left = Frac::sub(level, lost)?;
    let kept = greater(left, Frac::zero());
    Frac::add(kept, whole(entering.bits))
}

/// How many of the first packets are seen to keep a bucket, in one pass. The next one may keep it all the same.
fn bucket_upto(entries: &[Entering], bucket: &Bucket) -> usize
    ensures in_range { result ≤ length entries.now }
    ensures keeps { KeepsBucket bucket.now.burst bucket.now.rate entries.now result }
{
    let mut level = Frac::zero();
    let mut time = Frac::zero();
    for (number, entering) in entries.iter().enumerate() {
        let Ok(next) = next_level(level, bucket.rate, time, entering) else {
            return number;
        };
        if is_less(bucket.burst, next) {
            return number;
        }
        level = next;
        time = entering.time;
    }
    entries.len()
}

/// The time from the first packet to the last, if it is seen to fit.
fn reach_of(entries: &[Entering]) -> Option<Frac>
    ensures { IfSome result (λ far. far ≡ last_time entries.now -ℚ first_time entries.now) }
{
    let count = entries.len();
    if count == 0 {
        return None;
    }
    let back = count - 1;
    let last = entries[back];
    let first = entries[0];
    match Frac::sub(last.time, first.time) {
        Ok(far) => Some(far),
        Err(_) => None,
    }
}

/// How many of the first packets are seen to keep a piece up to where it ends, in one pass: a flat piece by the windows that are shorter,
/// another one, or the last, by its bucket.
pub(crate) fn piece_upto(entries: &[Entering], piece: &Piece, end: Option<Frac>) -> usize
    requires { TimesRiseIn entries.now }
    ensures in_range { result ≤ length entries.now }
    ensures keeps { KeepsPiece entries.now piece.now end result }
{
    let Some(bucket) = bucket_of(piece) else {
        return 0;
    };
    let Some(end) = end else {
        return bucket_upto(entries, &bucket);
    };
    if bucket.rate == Frac::zero() {
        return before_upto(entries, bucket.burst, end);
    }
    bucket_upto(entries, &bucket)
}

/// So many as keep a piece; all, where it starts too late to be read.
fn read_upto(entries: &[Entering], far: Frac, piece: &Piece, end: Option<Frac>) -> usize
    requires { TimesRiseIn entries.now }
    ensures in_range { result ≤ length entries.now }
    ensures keeps { piece.now.x ≤ℚ far → KeepsPiece entries.now piece.now end result }
{
    if is_less(far, piece.x) {
        return entries.len();
    }
    piece_upto(entries, piece, end)
}

/// The lesser of two counts.
pub(crate) fn fewer(a: usize, b: usize) -> usize
    ensures left { result ≤ a }
    ensures right { result ≤ b }
{
    if a < b { a } else { b }
}

/// How many are seen to keep all pieces so, in one pass for each.
fn pieces_upto(entries: &[Entering], far: Frac, pieces: &[Piece]) -> usize
    requires { TimesRiseIn entries.now }
    ensures in_range { result ≤ length entries.now }
    ensures keeps { (i : ℕ) → i < length pieces.now → KeepsAt entries.now far result (drop i pieces.now) }
{
    let mut least = entries.len();
    for i in 0..pieces.len() {
        let count = read_upto(entries, far, &pieces[i], next_start(pieces, i + 1));
        least = fewer(least, count);
    }
    least
}

/// How many of the first packets are seen to keep a curve by its pieces, where no period of it ends in time. So a bucket, and each
/// other curve that is the least of its lines or whose pieces are flat, is seen up to where it is broken; of another one more
/// packets may keep it.
fn early_upto(entries: &[Entering], arrival: &Curve) -> usize
    requires { FlowReads arrival.now entries.now }
    ensures { NoneCrowded (value_at arrival.now) entries.now result }
{
    let Some(far) = reach_of(entries) else {
        return 0;
    };
    if !is_early(arrival, far) {
        return 0;
    }
    pieces_upto(entries, far, arrival.pieces())
}

/// Whether a packet is the last of a pair between which too many bits enter, or there is no such packet. It only saves time.
fn is_settled(entries: &[Entering], arrival: &Curve, last: usize) -> bool
    requires { FlowReads arrival.now entries.now }
{
    if last >= entries.len() {
        return true;
    }
    least_first(entries, arrival, last).is_some()
}

/// The greater of two counts of first packets that keep a curve.
fn more(arrival: &Curve, entries: &[Entering], a: usize, b: usize) -> usize
    requires a { NoneCrowded (value_at arrival.now) entries.now a }
    requires b { NoneCrowded (value_at arrival.now) entries.now b }
    ensures { NoneCrowded (value_at arrival.now) entries.now result }
{
    if a < b { b } else { a }
}

/// How many of the first packets are seen to keep a curve: by its pieces where none of it repeats in time, by the line under a stair, and
/// where these do not tell the first packet that breaks it, by the pieces that repeat one by one.
fn seen_kept(alloc: Global, entries: &[Entering], arrival: &Curve) -> usize
    requires { FlowReads arrival.now entries.now }
    ensures { NoneCrowded (value_at arrival.now) entries.now result }
{
    let early = early_upto(entries, arrival);
    let by_stair = kept_upto(alloc, entries, arrival).unwrap_or(0);
    let seen = more(arrival, entries, early, by_stair);
    if is_settled(entries, arrival, seen) {
        return seen;
    }
    let repeated = repeated_upto(alloc, entries, arrival).unwrap_or(0);
    more(arrival, entries, seen, repeated)
}

/// A few first packets are looked at apart only where there are so many times as many in all: else that costs as much as all.
const TIMES_A_FEW: usize = 4;

/// How many are seen to keep it of so many first packets, if these are few of all and not all of them are seen to.
fn seen_within(alloc: Global, entries: &[Entering], arrival: &Curve, most: usize) -> Option<usize>
    requires { FlowReads arrival.now entries.now }
    ensures { IfSome result (NoneCrowded (value_at arrival.now) entries.now) }
{
    if most > entries.len() / TIMES_A_FEW {
        return None;
    }
    let first = &entries[..most];
    let seen = seen_kept(alloc, first, arrival);
    if seen < most {
        return Some(seen);
    }
    None
}

/// Packets for each piece of a curve that is looked at piece by piece: with fewer, all pairs of them cost no more.
const PACKETS_A_PIECE: usize = 16;

/// So many first packets are looked at before all are, so that a breach among them costs little.
const FEW_PACKETS: usize = 256;

const MORE_PACKETS: usize = 2048;

/// How many of the first packets are seen to keep a curve: of a few, of more, and of all. Where the curve has many pieces for so many
/// packets, it is seen where it is a stair alone.
fn kept_first(alloc: Global, entries: &[Entering], arrival: &Curve) -> usize
    requires { FlowReads arrival.now entries.now }
    ensures { NoneCrowded (value_at arrival.now) entries.now result }
{
    if arrival.pieces().len() > entries.len() / PACKETS_A_PIECE {
        return kept_upto(alloc, entries, arrival).unwrap_or(0);
    }
    if let Some(seen) = seen_within(alloc, entries, arrival, FEW_PACKETS) {
        return seen;
    }
    if let Some(seen) = seen_within(alloc, entries, arrival, MORE_PACKETS) {
        return seen;
    }
    seen_kept(alloc, entries, arrival)
}

/// The packets, first and last, between which more bits enter than a curve has: with the least last one,
/// and of those with the least first one. Up to where a curve is broken that is the least of its lines, or of flat pieces, it takes one
/// pass for each, and n log n steps for n packets where they repeat; else it looks at each pair once. No period is written out. Memory
/// that is refused costs no answer, only time.
pub fn first_crowded(alloc: Global, entries: &[Entering], arrival: &Curve) -> Option<(usize, usize)>
    requires { FlowReads arrival.now entries.now }
    ensures { MatchOption result (NoneCrowded (value_at arrival.now) entries.now (length entries.now))
        (λ p. IsFirstCrowded (value_at arrival.now) entries.now p.0 p.1) }
{
    let kept = kept_first(alloc, entries, arrival);
    for last in kept..entries.len() {
        if let Some(first) = least_first(entries, arrival, last) {
            return Some((first, last));
        }
    }
    None
}
