//! The law. It is the contract of a function that does nothing.

ghost use Rattle.sim_servers.specs.stated_existence.Laws.{StatedRunsExist};

/// A network in which no walk comes back, and a trace of its servers and live flows, have a stated run, whatever their
/// numbers are.
pub fn stated_runs_exist()
    ensures { StatedRunsExist }
{}
