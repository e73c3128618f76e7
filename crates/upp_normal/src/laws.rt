//! Laws of curves. Each is the contract of a function that does nothing.

ghost use Rattle.upp_curve.specs.Normal.{NormalFormIsUnique};
ghost use Rattle.upp_normal.specs.PieceLaws.{PiecesAreCounted, SpansAreUnrolled};
ghost use Rattle.upp_normal.specs.GaugeLaws.{GaugeNeverFalls};

/// Two curves in normal form with one value at each time are one.
pub fn normal_form_is_unique()
    ensures { NormalFormIsUnique }
{}

/// The number of unrolled pieces that start before a time, as a tally counts it without unrolling, is the length of the
/// list of them. Of a curve in normal form the pieces whose numbers a gauge looks at are the same pieces, each with the
/// start of the next one.
pub fn unrolled_pieces_are_counted()
    ensures count { PiecesAreCounted }
    ensures spans { SpansAreUnrolled }
{}

/// The gauge of a call never falls as its window grows, where the shorter window ends on the grid of the longer one's
/// times.
pub fn gauge_never_falls()
    ensures { GaugeNeverFalls }
{}
