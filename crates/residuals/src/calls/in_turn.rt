//! Where the calls that make these services are refused.

ghost use Rattle.residuals.specs.calls.InTurn.{ServicesArePlaced};

/// Where a queue's service is refused has a place among its calls: want of memory has fewer of them counted than a limit
/// is at, so that no limit of a counted one can be told so.
pub fn services_are_placed()
    ensures { ServicesArePlaced }
{}
