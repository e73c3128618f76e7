//! The law of the service of a deficit round robin queue. It is the contract of a function that does nothing.

ghost use Rattle.residual_laws.specs.DrrLaws.{DrrServes};

/// A queue of a deficit round robin server is served by its share.
pub fn drr_serves()
    ensures { DrrServes }
{}
