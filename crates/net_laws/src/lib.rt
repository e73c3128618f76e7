//! What a flow keeps from one server of its path to the next, and what its path promises it; and what the pace of a
//! server keeps apart (`paces`).
//!
//! A law is the contract of a function that does nothing: its body is empty, and its `ensures` is proved.
#![tactic(auto)]

pub mod paces;

ghost use Rattle.net_laws.specs.Laws.{LinkCarries, NextKeeps};
ghost use Rattle.net_laws.specs.Multicast.{PathRunsAreMulticast};
ghost use Rattle.net_laws.specs.Once.{NoneArrivesTwice, ClassLeavesByDelay};
ghost use Rattle.net_laws.specs.Orders.{KeptEverywhere};
ghost use Rattle.net_laws.specs.PathLaws.{PathIsServed, DelayFromPathService, DelayFromHops};
ghost use Rattle.net_laws.specs.Queues.{FlowStays, FlowLeaves};
ghost use Rattle.net_laws.specs.Sums.{SumsAreKept};

/// What arrives of a flow at a server is what left the server before, the link's time ago.
pub fn link_carries()
    ensures { LinkCarries }
{}

/// A flow keeps at the next server the curve with which it leaves this one.
pub fn next_keeps()
    ensures { NextKeeps }
{}

/// A path serves its flow by what each hop serves it: in whole packets where the path goes on.
pub fn path_is_served()
    ensures { PathIsServed }
{}

/// No packet takes longer than the horizontal deviation of its flow's curve and the path's service, and the links.
pub fn delay_from_path_service()
    ensures { DelayFromPathService }
{}

/// No packet takes longer than its flow's delays at each hop, and the links.
pub fn delay_from_hops()
    ensures { DelayFromHops }
{}

/// What is made of packets of some numbers, as of a queue's flows, of its flows but one, or of the queues before one,
/// keeps the sum of these numbers' curves.
pub fn sums_are_kept()
    ensures { SumsAreKept }
{}

/// In a network without a cycle in which each server passes its flows' curves on, all flows keep theirs at every
/// server.
pub fn kept_everywhere()
    ensures { KeptEverywhere }
{}

/// No packet of a flow stays in a queue longer than the lesser of the queue's and the flow's horizontal deviation.
pub fn flow_stays()
    ensures { FlowStays }
{}

/// A flow leaves a queue with its own curve, moved by that lesser deviation, and with the deconvolution of its curve
/// and its service, whole packets counted.
pub fn flow_leaves()
    ensures { FlowLeaves }
{}

/// Where each live flow's path passes no server twice, no packet arrives twice at a server.
pub fn none_arrives_twice()
    ensures { NoneArrivesTwice }
{}

/// So where no packet of a class of one queue, as a queue or a flow, stays longer than d at a server of such a run, the
/// class leaves with its arrival curve, moved left by d.
pub fn class_leaves_by_delay()
    ensures { ClassLeavesByDelay }
{}

/// A run is lawful over paths where it is lawful as a multicast run with the list of a path's next server, if any, and
/// only there.
pub fn path_runs_are_multicast()
    ensures { PathRunsAreMulticast }
{}
