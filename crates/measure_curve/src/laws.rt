//! Laws of the least arrival curve. Each is the contract of a function that does nothing.

ghost use Rattle.measure_curve.specs.Laws.{PacketsKeepTheCurve, KeptCurvesAreAbove, LeastArrivalIsOne};
ghost use Rattle.measure_curve.specs.Laws.{LeastBucketIsKept, LeastInRuns};

/// In each closed window no more bits of the packets enter than their least arrival curve has at its length.
pub fn packets_keep_the_curve()
    ensures { PacketsKeepTheCurve }
{}

/// Each curve that the packets keep is at least their least arrival curve at every length.
pub fn kept_curves_are_above()
    ensures { KeptCurvesAreAbove }
{}

/// Packets have one least arrival curve.
pub fn least_arrival_is_one()
    ensures { LeastArrivalIsOne }
{}

/// The packets keep the bucket with the least burst above their least arrival curve, and none of its rate with a
/// smaller burst.
pub fn least_bucket_is_kept()
    ensures { LeastBucketIsKept }
{}

/// In a run in which these packets enter the flow keeps the curve, and each arrival curve that it keeps there is at
/// least it.
pub fn least_in_runs()
    ensures { LeastInRuns }
{}
