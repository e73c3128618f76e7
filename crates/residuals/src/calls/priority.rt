//! Laws of the calls that make the service of a priority queue. Each is the contract of a function that does nothing.

ghost use Rattle.residuals.specs.calls.PriorityCalls.{PriorityCurveServes, PriorityIsDetermined};
ghost use Rattle.residuals.specs.calls.PriorityGrowth.{PriorityServiceGrows, PriorityCurveGrows};

/// The curve that `priority_service` answers serves the queue, in every lawful view.
pub fn priority_curve_serves()
    ensures { PriorityCurveServes }
{}

/// What `priority_service` answers is determined: the curve, or the limit of the first operator that is over one.
pub fn priority_is_determined()
    ensures { PriorityIsDetermined }
{}

/// Where a service is finite, is 0 at 0 and never falls, so is what the queues before a queue and one packet of those
/// after it leave, and the curve that `priority_service` answers; neither is anywhere below 0. The curve of the queues
/// before it is nowhere below 0.
pub fn priority_service_grows()
    ensures service { PriorityServiceGrows }
    ensures curve { PriorityCurveGrows }
{}
