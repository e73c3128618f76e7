//! The law of the service of a priority queue. It is the contract of a function that does nothing.

ghost use Rattle.residual_laws.specs.PriorityLaws.{PriorityServes};

/// A queue of a priority server is served by what the queues before it leave, less one packet of those after it.
pub fn priority_serves()
    ensures { PriorityServes }
{}
