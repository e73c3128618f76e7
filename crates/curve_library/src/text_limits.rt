//! Whether a listed curve by itself is over a limit, told by its text: no piece is copied, so no memory is taken.

ghost use Rattle.std.specs.Prelude.{◌≡◌, ◌↔◌, ◌+◌, ◌<◌, ◌^◌, List, [], ◌∷◌, drop, length, IfSome, IsSome, IsTrue, MatchOption};
ghost use Rattle.std.specs.List.{AllByRecursion};
ghost use Rattle.rational.specs.Rational.{◌<ℚ◌};
ghost use Rattle.upp_curve.specs.affine_segment.Pieces.{Each, start_after};
ghost use Rattle.upp_limits.specs.ClosedForm.{closed_spans, span_numbers, tail_numbers};
ghost use Rattle.upp_limits.specs.Gathered.{Gathers};
ghost use Rattle.upp_limits.specs.Limits.{Numbers, joined, time_alone, sizes_of, gauge_of, own_end, own_gauge};
ghost use Rattle.upp_limits.specs.OwnLimits.{IsOver, IsWithinOwn};
ghost use Rattle.upp_limits.specs.OwnWindow.{EndFits, EndsAt, end_from};
ghost use Rattle.upp_limits.specs.Seen.{Knows, SpanFits};
ghost use Rattle.upp_limits.specs.Spans.{Span, end_of, spans};
ghost use Rattle.curve_library.specs.declared.texts.PieceText.{PieceText};
ghost use Rattle.curve_library.specs.Listed.{text_piece, text_pieces, text_tail, listed_curve, HasLength, TextFits, IsWellFormed};

use crate::text_pieces::{last_start_of, piece_of};
use crate::texts::{PieceText, TailText};
use fraction128::Frac;
use upp_curve::Tail;
use upp_curve::affine_segment::Piece;
use upp_limits::gathered::Gathered;
use upp_limits::gauges::{product, reach};
use upp_limits::{OverLimit, keeps_line, later_unless};

// ---- the window
// Where the window of a curve ends whose last piece goes on for ever: 1 after the time from when on it is a line.
fn end_past(last: &Piece) -> Option<Frac>
    ensures value { IfSome result (λ t. t ≡ end_from last.now (Tail.Affine last.now.x)) }
    ensures fits { EndFits last.now (Tail.Affine last.now.x) → IsSome result }
{
    let keeps = keeps_line(last, last.x)?;
    let steady = later_unless(keeps, last.x)?;
    Frac::add(steady, Frac::one()).ok()
}

// Where the curve's own window ends: with the first period, where there is one.
fn end_with(last: &PieceText, tail: &Option<TailText>) -> Option<Frac>
    ensures value { IfSome result (λ t. t ≡ end_from (text_piece last.now) (text_tail (last.now ∷ []) tail.now)) }
    ensures fits { TextFits last.now → EndFits (text_piece last.now) (text_tail (last.now ∷ []) tail.now)
        → IsSome result }
{
    match tail {
        Some(t) => Frac::add(t.rank, t.period).ok(),
        None => match piece_of(last) {
            Some(piece) => end_past(&piece),
            None => None,
        },
    }
}

// Where the next piece starts after the last one, of a tail whose first period ends at `end`.
fn after_last(tail: &Option<TailText>, end: Frac) -> Option<Frac>
    ensures { (ps : List PieceText) → EndsAt (text_tail ps tail.now) end → result ≡ end_of (text_tail ps tail.now) }
{
    match tail {
        Some(_) => Some(end),
        None => None,
    }
}

// Where the piece after number i starts, or `after` at the last one.
fn next_start(texts: &[PieceText], i: usize, after: &Option<Frac>) -> Option<Frac>
    requires { i < length texts.now }
    ensures { result ≡ start_after (text_pieces (drop (i + 1) texts.now)) after.now }
{
    if i + 1 < texts.len() {
        Some(texts[i + 1].x)
    } else {
        *after
    }
}

// ---- the numbers
// The numbers of a piece more, where the steps to its line and its values fit.
fn with_text(g: Gathered, p: &PieceText, next: &Option<Frac>) -> Option<Gathered>
    ensures value { let span : Span = record { piece = text_piece p.now; next = next.now } in
        IfSome result (λ r. (n : Numbers) → Gathers g n → Gathers r (joined n (span_numbers span))) }
    ensures fits { let span : Span = record { piece = text_piece p.now; next = next.now } in
        TextFits p.now → SpanFits span → IsSome result }
{
    match piece_of(p) {
        Some(piece) => g.with_span(&piece, next),
        None => None,
    }
}

// The numbers of all pieces more: each starts before the end of the window, and no copy of it does.
fn with_texts(
    g: Gathered,
    texts: &[PieceText],
    tail: &Option<TailText>,
    end: Frac,
) -> Option<Gathered>
    requires early { Each (λ p. p.x <ℚ end) (text_pieces texts.now) }
    requires length { HasLength tail.now }
    requires end { EndsAt (text_tail texts.now tail.now) end }
    ensures value { let t = text_tail texts.now tail.now in IfSome result (λ r. (n : Numbers) → Gathers g n
        → Gathers r (joined n (closed_spans t end (spans t (text_pieces texts.now))))) }
    ensures fits { let t = text_tail texts.now tail.now in AllByRecursion TextFits texts.now
        → AllByRecursion (Knows t end) (spans t (text_pieces texts.now)) → IsSome result }
{
    let after = after_last(tail, end);
    let mut found = g;
    for i in 0..texts.len() {
        let next = next_start(texts, i, &after);
        match with_text(found, &texts[i], &next) {
            Some(more) => found = more,
            None => return None,
        }
    }
    Some(found)
}

// The numbers of the tail more.
fn with_tail(g: Gathered, texts: &[PieceText], tail: &Option<TailText>) -> Gathered
    ensures { (n : Numbers) → Gathers g n → Gathers result (joined n (tail_numbers (text_tail texts.now tail.now))) }
{
    match tail {
        Some(t) => g.with_time(t.rank).with_time(t.period).with_value(t.rise),
        None => g.with_time(last_start_of(texts)),
    }
}

// ---- the limits
// Whether the gauge of the numbers gathered is below 2^120.
fn is_small(g: Gathered, end: Frac) -> bool
    ensures { (n : Numbers) → Gathers g (joined (time_alone end) n)
        → IsTrue result ↔ (gauge_of (sizes_of end n) < 2 ^ 120) }
{
    if g.steepness == u128::MAX {
        return false;
    }
    match reach(g.steepness, end) {
        Some(far) => match product(g.largest.max(far), g.steepness, g.dv, g.dt, g.ds) {
            Some(gauge) => gauge < 1 << 120,
            None => false,
        },
        None => false,
    }
}

// The same of all numbers of the curve, by the end of its own window.
fn is_narrow_to(texts: &[PieceText], tail: &Option<TailText>, end: Frac) -> bool
    requires form { IsWellFormed texts.now tail.now }
    requires end { end ≡ own_end (listed_curve texts.now tail.now) }
    ensures { IsTrue result ↔ (own_gauge (listed_curve texts.now tail.now) < 2 ^ 120) }
{
    let start = with_tail(Gathered::nothing().with_time(end), texts, tail);
    match with_texts(start, texts, tail, end) {
        Some(g) => is_small(g, end),
        None => false,
    }
}

// Whether the gauge of the curve by itself is below 2^120.
fn is_narrow(texts: &[PieceText], tail: &Option<TailText>) -> bool
    requires { IsWellFormed texts.now tail.now }
    ensures { IsTrue result ↔ (own_gauge (listed_curve texts.now tail.now) < 2 ^ 120) }
{
    match end_with(&texts[texts.len() - 1], tail) {
        Some(end) => is_narrow_to(texts, tail, end),
        None => false,
    }
}

/// The limit that a listed curve by itself is over; None where it is over neither. In its own window it has its listed
/// pieces, each once. No memory is taken.
pub(crate) fn over_limit(texts: &[PieceText], tail: &Option<TailText>) -> Option<OverLimit>
    requires { IsWellFormed texts.now tail.now }
    ensures { let c = listed_curve texts.now tail.now in MatchOption result (IsWithinOwn c) (IsOver c) }
{
    if !is_narrow(texts, tail) {
        return Some(OverLimit::TooWide);
    }
    if texts.len() > 1 << 20 {
        return Some(OverLimit::TooMany);
    }
    None
}
