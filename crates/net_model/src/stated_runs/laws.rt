//! Laws of stated runs. A law is the contract of a function that does nothing.

ghost use Rattle.net_model.specs.stated_runs.FromTraces.{TracesMakeSetups};
ghost use Rattle.net_model.specs.stated_runs.Laws.{StatedRunsAreLawful, StatedRunIsUnique, StatedRunsGoByTime, EveryPacketLeaves, EachLeavesItsLast, OpenServersStart};

/// An accepted network, and a trace whose numbers are those of its servers and live flows, make a setup.
pub fn traces_make_setups()
    ensures { TracesMakeSetups }
{}

/// The stated run is a lawful run of its network.
pub fn stated_runs_are_lawful()
    ensures { StatedRunsAreLawful }
{}

/// A network and a trace have one stated run at most.
pub fn stated_run_is_unique()
    ensures { StatedRunIsUnique }
{}

/// The steps of a stated run go by time.
pub fn stated_runs_go_by_time()
    ensures { StatedRunsGoByTime }
{}

/// At the end of a stated run all packets of the trace have entered, and none is at a server or on a link.
pub fn every_packet_leaves()
    ensures { EveryPacketLeaves }
{}

/// Each packet of the trace leaves the last server of its path.
pub fn each_leaves_its_last()
    ensures { EachLeavesItsLast }
{}

/// A server that has packets of which none is under way starts one at the first time at which it is neither stalled nor
/// closed, unless another packet comes by then.
pub fn open_servers_start()
    ensures { OpenServersStart }
{}
