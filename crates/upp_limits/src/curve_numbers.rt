//! The sizes of the numbers of a curve in a window, without unrolling it.

ghost use Rattle.std.specs.Prelude.{ℕ, ◌≡◌, ◌<◌, ◌+◌, ◌^◌, pos, IfSome, IsSome, length, drop, ◌∷◌};
ghost use Rattle.std.specs.List.{AllByRecursion};
ghost use Rattle.rational.specs.Rational.{ℚ, int, ◌*ℚ◌, ◌≤ℚ◌, ◌<ℚ◌};
ghost use Rattle.upp_curve.specs.affine_segment.Pieces.{start_after};
ghost use Rattle.upp_limits.specs.Spans.{IsListed, Span, piece_read, spans};
ghost use Rattle.upp_limits.specs.Limits.{Numbers, joined};
ghost use Rattle.upp_limits.specs.Gathered.{Gathers};
ghost use Rattle.upp_limits.specs.Seen.{seen_of, SpanFits, SeenRises, CopiesFit, Knows};
ghost use Rattle.upp_limits.specs.ClosedForm.{span_numbers, last_numbers, copies_numbers, once_numbers, closed_span, closed_spans, tail_numbers, closed_numbers, first_numbers};
ghost use Rattle.upp_curve.specs.Curve.{SpecCurve};
ghost use Rattle.upp_limits.specs.Periods.{HasPeriod};

use crate::gathered::Gathered;
use crate::start_counts::count_before;
use fraction128::{Frac, is_less};
use upp_curve::Tail;
use upp_curve::affine_segment::Piece;

/// The pieces of a curve, of any form, that are read one after another.
#[derive(Debug, Clone, Copy)]
pub struct Listing<'a> {
    /// The pieces.
    pub pieces: &'a [Piece],
    /// What follows them.
    pub tail: &'a Tail,
    /// Where the next piece starts after the last.
    pub after: Option<Frac>,
}

/// A piece as it is read, and where the next one starts.
pub(crate) type Reading = (Piece, Option<Frac>);

/// A whole number as a fraction.
pub fn whole(n: u128) -> Option<Frac>
    ensures value { IfSome result (λ f. f ≡ int (pos n)) }
    ensures fits { n < 2 ^ 127 → IsSome result }
{
    if n > i128::MAX as u128 {
        return None;
    }
    Some(Frac::from_whole(n as i128))
}

/// The first copy of a piece and the values of copy `last` more.
fn with_first_and_last(
    g: Gathered,
    piece: &Piece,
    next: &Option<Frac>,
    last: u128,
    rise: Frac,
) -> Option<Gathered>
    ensures value { let span : Span = record { piece = piece.now; next = next.now } in
        IfSome result (λ r. (n : Numbers) → Gathers g n
        → Gathers r (joined n (joined (span_numbers span) (last_numbers (int (pos last) *ℚ rise) span)))) }
    ensures fits { let span : Span = record { piece = piece.now; next = next.now } in
        last < 2 ^ 127 → SpanFits span → SeenRises (seen_of span) (int (pos last)) rise → IsSome result }
{
    let n = whole(last)?;
    match g.with_span(piece, next) {
        Some(first) => first.with_last(piece, next, n, rise),
        None => None,
    }
}

/// So many copies of a piece more: the first, and the values of the last.
#[inline(never)]
fn with_copies(
    g: Gathered,
    piece: &Piece,
    next: &Option<Frac>,
    copies: u128,
    rise: Frac,
) -> Option<Gathered>
    ensures value { let span : Span = record { piece = piece.now; next = next.now } in
        IfSome result (λ r. (n : Numbers) → Gathers g n → Gathers r (joined n (copies_numbers rise span copies))) }
    ensures fits { let span : Span = record { piece = piece.now; next = next.now } in
        CopiesFit span copies rise → IsSome result }
{
    if copies == 0 {
        Some(g)
    } else if copies == 1 {
        g.with_span(piece, next)
    } else {
        with_first_and_last(g, piece, next, copies - 1, rise)
    }
}

/// A piece more, where it starts before `end`.
#[inline(always)]
fn with_once(g: Gathered, piece: &Piece, next: &Option<Frac>, end: Frac) -> Option<Gathered>
    ensures value { let span : Span = record { piece = piece.now; next = next.now } in
        IfSome result (λ r. (n : Numbers) → Gathers g n → Gathers r (joined n (once_numbers end span))) }
    ensures fits { let span : Span = record { piece = piece.now; next = next.now } in
        (piece.now.x <ℚ end → SpanFits span) → IsSome result }
{
    if is_less(piece.x, end) {
        g.with_span(piece, next)
    } else {
        Some(g)
    }
}

/// What of a piece starts before `end` more: itself, or from the rank of a periodic tail on its copies.
#[inline(always)]
pub(crate) fn with_below(g: Gathered, read: &Reading, tail: &Tail, end: Frac) -> Option<Gathered>
    requires start { int (pos 0) ≤ℚ read.now.0.x }
    requires period { HasPeriod tail.now }
    ensures value { let span : Span = record { piece = read.now.0; next = read.now.1 } in
        IfSome result (λ r. (n : Numbers) → Gathers g n → Gathers r (joined n (closed_span tail.now end span))) }
    ensures fits { let span : Span = record { piece = read.now.0; next = read.now.1 } in
        Knows tail.now end span → IsSome result }
{
    match tail {
        Tail::Periodic { rank, period, rise } => {
            if is_less(read.0.x, *rank) {
                return with_once(g, &read.0, &read.1, end);
            }
            let copies = count_before(read.0.x, *period, end);
            if copies == u128::MAX {
                return None;
            }
            with_copies(g, &read.0, &read.1, copies, *rise)
        }
        _ => with_once(g, &read.0, &read.1, end),
    }
}

/// A piece without a line that is read at no time.
#[inline(always)]
pub fn piece_read(piece: &Piece, tail: &Tail) -> Piece
    ensures { result ≡ piece_read tail.now piece.now }
{
    match tail {
        Tail::Infinite { rank } => Piece {
            x: piece.x,
            at: piece.at,
            line: if is_less(piece.x, *rank) {
                piece.line
            } else {
                None
            },
        },
        _ => *piece,
    }
}

/// Where the piece after number i starts, or `after` at the last one.
#[inline(always)]
pub fn next_start(pieces: &[Piece], i: usize, after: &Option<Frac>) -> Option<Frac>
    requires { i < length pieces.now }
    ensures { result ≡ start_after (drop (i + 1) pieces.now) after.now }
{
    if i + 1 < pieces.len() {
        Some(pieces[i + 1].x)
    } else {
        *after
    }
}

/// Piece number i as it is read, and where the next one starts.
#[inline(always)]
pub(crate) fn span_at(of: &Listing, i: usize) -> Reading
    requires listed { IsListed of.now.pieces.now of.now.tail.now of.now.after }
    requires inside { i < length of.now.pieces.now }
    ensures start { int (pos 0) ≤ℚ result.0.x }
    ensures span { let span : Span = record { piece = result.0; next = result.1 } in
        let tail = of.now.tail.now in
        spans tail (drop i of.now.pieces.now) ≡ span ∷ spans tail (drop (i + 1) of.now.pieces.now) }
{
    let piece = piece_read(&of.pieces[i], of.tail);
    let next = next_start(of.pieces, i, &of.after);
    (piece, next)
}

/// The pieces of a curve more, as far as they and those of their copies that `counted` makes start before `end`.
// Written out for each of the two tails that it is called with, so that the sizes stay in registers.
#[inline(always)]
pub(crate) fn with_pieces(g: Gathered, of: &Listing, counted: &Tail, end: Frac) -> Option<Gathered>
    requires listed { IsListed of.now.pieces.now of.now.tail.now of.now.after }
    requires period { HasPeriod counted.now }
    ensures value { IfSome result (λ r. (n : Numbers) → Gathers g n
        → Gathers r (joined n (closed_spans counted.now end (spans of.now.tail.now of.now.pieces.now)))) }
    ensures fits { AllByRecursion (Knows counted.now end) (spans of.now.tail.now of.now.pieces.now) → IsSome result }
{
    let mut found = g;
    for i in 0..of.pieces.len() {
        let read = span_at(of, i);
        match with_below(found, &read, counted, end) {
            Some(more) => found = more,
            None => return None,
        }
    }
    Some(found)
}

/// The rank, the period and the rise of a tail more.
#[inline]
pub(crate) fn with_tail(g: Gathered, tail: &Tail) -> Gathered
    ensures { (n : Numbers) → Gathers g n → Gathers result (joined n (tail_numbers tail.now)) }
{
    match tail {
        Tail::Periodic { rank, period, rise } => g
            .with_time(*rank)
            .with_time(*period)
            .with_value(*rise),
        Tail::Affine { rank } => g.with_time(*rank),
        Tail::Infinite { rank } => g.with_time(*rank),
    }
}

/// A curve more without its copies: of each of its pieces that start before `end` itself alone.
pub(crate) fn with_first_copies(g: Gathered, of: &Listing, end: Frac) -> Option<Gathered>
    requires { IsListed of.now.pieces.now of.now.tail.now of.now.after }
    ensures { let c : SpecCurve = record { pieces = of.now.pieces.now; tail = of.now.tail.now } in
        IfSome result (λ r. (n : Numbers) → Gathers g n → Gathers r (joined n (first_numbers end c))) }
{
    let counted = Tail::Affine { rank: Frac::zero() };
    with_pieces(with_tail(g, of.tail), of, &counted, end)
}

/// A curve more, as far as its pieces and their copies start before `end`.
pub(crate) fn with_curve(g: Gathered, of: &Listing, end: Frac) -> Option<Gathered>
    requires listed { IsListed of.now.pieces.now of.now.tail.now of.now.after }
    requires period { HasPeriod of.now.tail.now }
    ensures value { let c : SpecCurve = record { pieces = of.now.pieces.now; tail = of.now.tail.now } in
        IfSome result (λ r. (n : Numbers) → Gathers g n → Gathers r (joined n (closed_numbers end c))) }
    ensures fits { let tail = of.now.tail.now in
        AllByRecursion (Knows tail end) (spans tail of.now.pieces.now) → IsSome result }
{
    with_pieces(with_tail(g, of.tail), of, of.tail, end)
}
