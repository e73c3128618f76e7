//! Worked runs: small networks, each with a table that meets its equations, and runs of them, of which all but those
//! of deficit round robin take exactly as long as the bound.
//!
//! A law is the contract of a function that does nothing: its body is empty, and its `ensures` is proved.
#![tactic(auto)]

ghost use Rattle.worked_runs.specs.OneFlow.{OneFlowReachesItsBound};
ghost use Rattle.worked_runs.specs.TwoServers.{TwoServersReachTheirBound};
ghost use Rattle.worked_runs.specs.TwoFlows.{TwoFlowsReachTheirBounds};
ghost use Rattle.worked_runs.specs.TwoPriorities.{TwoPrioritiesReachTheirBounds};
ghost use Rattle.worked_runs.specs.TwoQuanta.{TwoQuantaStayBelowTheirBounds};
ghost use Rattle.worked_runs.specs.OneGate.{GateReachesItsBound};

/// One packet of 12000 bits through a server of 100 bits a unit of time after a latency of 10 takes 130, which is the
/// flow's bound in each table that meets the network's equations, and there is such a table.
pub fn one_flow_reaches_its_bound()
    ensures { OneFlowReachesItsBound }
{}

/// So it does through two such servers with links of 5: the packet takes 270, links included.
pub fn two_servers_reach_their_bound()
    ensures { TwoServersReachTheirBound }
{}

/// Two packets in one first in, first out queue take 190, whichever of the two flows is served last.
pub fn two_flows_reach_their_bounds()
    ensures { TwoFlowsReachTheirBounds }
{}

/// Two packets at a priority server take 190: the higher one behind a lower one that is not broken off, the lower one
/// behind a higher one.
pub fn two_priorities_reach_their_bounds()
    ensures { TwoPrioritiesReachTheirBounds }
{}

/// Two packets at a deficit round robin server take 190; the bounds of the two flows are 370 and 550. The law behind
/// them counts whole rounds of the other queue, and a deficit of a whole packet.
pub fn two_quanta_stay_below_their_bounds()
    ensures { TwoQuantaStayBelowTheirBounds }
{}

/// One packet of 24000 bits through a gate that is open for the last 250 of each 1000, at 100 bits a unit of time,
/// takes 990; the flow sends a packet each 1500.
pub fn gate_reaches_its_bound()
    ensures { GateReachesItsBound }
{}
