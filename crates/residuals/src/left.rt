//! What a server leaves one of its queues, whatever its discipline: laws of the service that is made of it.

ghost use Rattle.residuals.specs.left.Laws.{LeftServes, LeftGrows};

/// What is left to a queue serves it, in every lawful view.
pub fn left_serves()
    ensures { LeftServes }
{}

/// Where a service is finite, is 0 at 0 and never falls, so is what is left of it to a queue; the curve of the queues
/// before it, if it is asked for, is nowhere below 0.
pub fn left_grows()
    ensures { LeftGrows }
{}
