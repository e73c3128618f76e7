//! The law. It is the contract of a function that does nothing.

ghost use Rattle.sim_bounds.specs.stated_service.Laws.{OpenServersKeepTheirCurves};

/// In the stated run of a network and a trace, each server of kind latency or gate that has no stall in the trace keeps
/// its service curve.
pub fn open_servers_keep_their_curves()
    ensures { OpenServersKeepTheirCurves }
{}
