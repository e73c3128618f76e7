//! Where the infimum of a convolution is reached: at the best split of a time one of the two functions turns up. The
//! function is a theorem: its contract is the law, its body is empty.

ghost use Rattle.min_plus.specs.best_splits.BestSplits.{BestSplitTurns, LeastAtEnds};

/// At a best split of a time, where beside it each of the two functions is a line or infinite, one of them turns up:
/// its slope before the split is at most its slope after it, where a jump counts as infinite slope.
pub fn best_split_turns()
    ensures { BestSplitTurns }
{}

/// Of the splits of a time between the same two lines none is better than both that reach an end of one of them. So a
/// best split can be looked for among those.
pub fn least_at_ends()
    ensures { LeastAtEnds }
{}
