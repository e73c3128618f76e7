//! What the number of periods is for.

ghost use Rattle.curve_call.specs.Ever.{BelowEverAfter};

/// Where two curves repeat, and for a period after k periods the slower is nowhere above the faster, it is so at each
/// later time.
pub fn below_ever_after()
    ensures { BelowEverAfter }
{}
