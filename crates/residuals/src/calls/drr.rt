//! Laws of the calls that make the service of a deficit round robin queue. Each is the contract of a function that does
//! nothing.

ghost use Rattle.residuals.specs.calls.DrrCalls.{DrrCurveServes, DrrIsDetermined};
ghost use Rattle.residuals.specs.calls.DrrGrowth.{DrrServiceGrows, DrrCurveGrows};

/// The curve that `drr_service` answers serves the queue, in every lawful view.
pub fn drr_curve_serves()
    ensures { DrrCurveServes }
{}

/// What `drr_service` answers is determined: the curve, or the limit of the first operator that is over one.
pub fn drr_is_determined()
    ensures { DrrIsDetermined }
{}

/// Where a service is finite, is 0 at 0 and never falls, so is a queue's share of it, less what is owed, and the curve
/// that `drr_service` answers; neither is anywhere below 0.
pub fn drr_service_grows()
    ensures service { DrrServiceGrows }
    ensures curve { DrrCurveGrows }
{}
