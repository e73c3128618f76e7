ghost use Rattle.run_laws.specs.Closures.{ClosureIsKept, ClosuresKeepPremises};
ghost use Rattle.run_laws.specs.Waits.{DelayFromWait, OneWaitIsEnough, BacklogFromGap};
ghost use Rattle.run_laws.specs.Weaker.{GreaterIsKept, WeakerPremisesAreKept, LesserIsKept, LesserServes, LesserServesPackets};
ghost use Rattle.run_laws.specs.Laws.{FlowIsOfOneQueue, FlowIsPart};
ghost use Rattle.run_laws.specs.Laws.{ServerIsServed, FifoQueueIsServed, PacketsAreServed, DelayFromService, BacklogFromService, OutputFromService, PartOutputFromService, OutputFromDelay, ViewsAreLawful, OneFlowIsBounded, SeveralFlowsAreBounded};

/// A server's curve serves the server as a whole.
pub fn server_is_served()
    ensures { ServerIsServed }
{}

/// The curve of a first in, first out server serves its queue.
pub fn fifo_queue_is_served()
    ensures { FifoQueueIsServed }
{}

/// A curve that serves a class of packets serves, less one packet, its whole packets.
pub fn packets_are_served()
    ensures { PacketsAreServed }
{}

/// No packet of a class of one queue, as a queue or a flow, stays longer than the horizontal deviation of its curves.
pub fn delay_from_service()
    ensures { DelayFromService }
{}

/// The backlog of a class is at most the vertical deviation of its curves, whole packets counted.
pub fn backlog_from_service()
    ensures { BacklogFromService }
{}

/// No packet of a class of one queue stays longer than d, where after each longer wait the curve that serves the class
/// is at least where its arrival curve was; where the former never falls, the wait d is enough.
pub fn delay_from_wait()
    ensures delay { DelayFromWait }
    ensures one_wait { OneWaitIsEnough }
{}

/// The backlog of a class is no more than its arrival curve is anywhere above the curve that serves it, whole packets
/// counted.
pub fn backlog_from_gap()
    ensures { BacklogFromGap }
{}

/// What leaves in a closed window is at most the deconvolution of the curves, whole packets counted.
pub fn output_from_service()
    ensures { OutputFromService }
{}

/// A part of a queue leaves with its own curve, moved left by the horizontal deviation of the queue.
pub fn part_output_from_service()
    ensures { PartOutputFromService }
{}

/// Where no packet of a class of one queue, as a queue or a flow, stays longer than d, and no packet arrives twice, the
/// class leaves with its arrival curve, moved left by d.
pub fn output_from_delay()
    ensures { OutputFromDelay }
{}

/// What each server sees of a lawful run is a lawful view.
pub fn views_are_lawful()
    ensures { ViewsAreLawful }
{}

/// At each server the packets of a flow that arrive are of one queue, and a part of it: the one that the flow's path
/// has there. So each law of a class of one queue, or of a part of a queue, is one of a flow.
pub fn flow_is_of_one_queue()
    ensures queue { FlowIsOfOneQueue }
    ensures part { FlowIsPart }
{}

/// Who keeps a curve in every closed window keeps its subadditive closure: a class of packets that arrive at a server,
/// and the flows of a run.
pub fn closure_is_kept()
    ensures arrivals { ClosureIsKept }
    ensures premises { ClosuresKeepPremises }
{}

/// Who keeps an arrival curve keeps each that is nowhere below it: a class of packets that arrive at a server, and the
/// flows of a run, whose servers then also keep each service curve that is nowhere above theirs.
pub fn who_keeps_keeps_greater()
    ensures arrivals { GreaterIsKept }
    ensures premises { WeakerPremisesAreKept }
{}

/// What a service curve promises, each that is nowhere above it does: of a server, of a class, of its whole packets.
pub fn who_serves_serves_lesser()
    ensures server { LesserIsKept }
    ensures class { LesserServes }
    ensures packets { LesserServesPackets }
{}

/// One flow over a first in, first out server: no delay and no backlog passes the two deviations.
pub fn one_flow_is_bounded()
    ensures { OneFlowIsBounded }
{}

/// Several flows that enter at a first in, first out server: no delay and no backlog passes the two deviations of the
/// sum of their curves.
pub fn several_flows_are_bounded()
    ensures { SeveralFlowsAreBounded }
{}
