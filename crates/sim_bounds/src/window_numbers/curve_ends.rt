//! The numbers of curves up to the end of a window, with those of the pieces that start at it.

ghost use Rattle.std.specs.Prelude.{◌≡◌, pos, IfSome, IsSome};
ghost use Rattle.std.specs.List.{AllByRecursion};
ghost use Rattle.rational.specs.Rational.{int, ◌≤ℚ◌, ◌<ℚ◌};
ghost use Rattle.upp_curve.specs.affine_segment.Pieces.{StartsAtZero};
ghost use Rattle.upp_limits.specs.Periods.{HasPeriod};
ghost use Rattle.upp_limits.specs.Spans.{Span, end_of, spans};
ghost use Rattle.upp_limits.specs.Seen.{SpanFits};
ghost use Rattle.upp_limits.specs.Limits.{Numbers, Sizes, joined};
ghost use Rattle.upp_limits.specs.Sized.{HeldBy};
ghost use Rattle.upp_limits.specs.Gathered.{Gathers};
ghost use Rattle.sim_bounds.specs.Gauge.{numbers_to};
ghost use Rattle.sim_bounds.specs.window_numbers.CurveEnds.{itself_at, copy_at, numbers_with, end_numbers, all_end_numbers, CopyFits, KnowsEnd};

use fraction128::{Frac, is_less};
use upp_curve::affine_segment::Piece;
use upp_curve::{Curve, Tail};
use upp_limits::curve_numbers::{next_start, piece_read, whole};
use upp_limits::gathered::Gathered;
use upp_limits::is_after;
use upp_limits::operand_numbers::{after_last, with_one};
use upp_limits::start_counts::count_before;

/// The start of a piece more, and where that is `end`, its values and its slope.
fn with_itself(g: Gathered, piece: &Piece, next: &Option<Frac>, end: Frac) -> Option<Gathered>
    ensures value { let span : Span = record { piece = piece.now; next = next.now } in
        IfSome result (λ r. (n : Numbers) → Gathers g n
        → Gathers r (joined n (numbers_with piece.now.x (itself_at end span)))) }
    ensures fits { let span : Span = record { piece = piece.now; next = next.now } in
        (piece.now.x ≡ end → SpanFits span) → IsSome result }
{
    if piece.x == end {
        g.with_span(piece, next)
    } else {
        Some(g.with_time(piece.x))
    }
}

/// The start of a piece more, and where a copy of it starts at `end`, the values and the slope of that copy.
fn with_copy(
    g: Gathered,
    piece: &Piece,
    next: &Option<Frac>,
    period: Frac,
    rise: Frac,
    end: Frac,
) -> Option<Gathered>
    requires start { int (pos 0) ≤ℚ piece.now.x }
    requires period { int (pos 0) <ℚ period }
    ensures value { let span : Span = record { piece = piece.now; next = next.now } in
        IfSome result (λ r. (n : Numbers) → Gathers g n
        → Gathers r (joined n (numbers_with piece.now.x (copy_at period rise end span)))) }
    ensures fits { let span : Span = record { piece = piece.now; next = next.now } in
        CopyFits period rise end span → IsSome result }
{
    let copies = count_before(piece.x, period, end);
    if copies == u128::MAX {
        return None;
    }
    let started = g.with_time(piece.x);
    if is_after(piece.x, copies, period, end) {
        return Some(started);
    }
    match whole(copies) {
        Some(times) => started
            .with_line(piece.line)
            .with_last(piece, next, times, rise),
        None => None,
    }
}

/// The start of a piece more, and the values and the slope of what of it starts at `end`.
fn with_end(
    g: Gathered,
    piece: &Piece,
    next: &Option<Frac>,
    tail: &Tail,
    end: Frac,
) -> Option<Gathered>
    requires start { int (pos 0) ≤ℚ piece.now.x }
    requires period { HasPeriod tail.now }
    ensures value { let span : Span = record { piece = piece.now; next = next.now } in
        IfSome result (λ r. (n : Numbers) → Gathers g n → Gathers r (joined n (end_numbers tail.now end span))) }
    ensures fits { let span : Span = record { piece = piece.now; next = next.now } in
        KnowsEnd tail.now end span → IsSome result }
{
    match tail {
        Tail::Periodic { rank, period, rise } => {
            if is_less(piece.x, *rank) {
                return with_itself(g, piece, next, end);
            }
            with_copy(g, piece, next, *period, *rise, end)
        }
        _ => with_itself(g, piece, next, end),
    }
}

/// The same for all pieces of a curve. `after` is where the next piece starts after the last.
fn with_ends(
    g: Gathered,
    pieces: &[Piece],
    tail: &Tail,
    after: &Option<Frac>,
    end: Frac,
) -> Option<Gathered>
    requires starts { StartsAtZero pieces.now }
    requires period { HasPeriod tail.now }
    requires after { after.now ≡ end_of tail.now }
    ensures value { IfSome result (λ r. (n : Numbers) → Gathers g n
        → Gathers r (joined n (all_end_numbers tail.now end (spans tail.now pieces.now)))) }
    ensures fits { AllByRecursion (KnowsEnd tail.now end) (spans tail.now pieces.now) → IsSome result }
{
    let mut found = g;
    for i in 0..pieces.len() {
        let next = next_start(pieces, i, after);
        let piece = piece_read(&pieces[i], tail);
        match with_end(found, &piece, &next, tail, end) {
            Some(more) => found = more,
            None => return None,
        }
    }
    Some(found)
}

/// The numbers of a curve more, as far as its pieces and their copies start at `end` or before.
pub(crate) fn with_curve(g: Gathered, c: &Curve, end: Frac) -> Option<Gathered>
    ensures value { IfSome result (λ r. (n : Numbers) → Gathers g n → Gathers r (joined n (numbers_to end c.now))) }
    ensures fits { (z : Sizes) → HeldBy z end (numbers_to end c.now) → IsSome result }
{
    match with_one(g, c, end) {
        Some(found) => with_ends(found, c.pieces(), c.tail(), &after_last(c), end),
        None => None,
    }
}
