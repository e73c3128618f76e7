//! Runs of networks whose flows are trees of servers, as multicast links are: which runs are lawful, and what each
//! server sees of them and passes on.
//!
//! A law is the contract of a function that does nothing: its body is empty, and its `ensures` is proved.
#![tactic(auto)]

ghost use Rattle.tree_runs.specs.Bounded.{TreesAreBounded, TreesAreBoundedByQueues};
ghost use Rattle.tree_runs.specs.BoundedByParts.{TreesAreBoundedByParts};
ghost use Rattle.tree_runs.specs.Branches.{BranchDelayFromHops, BranchDelayFromService};
ghost use Rattle.tree_runs.specs.Examples.{OverAFork};
ghost use Rattle.tree_runs.specs.Laws.{TreeViewsAreLawful, TreeLinkCarries, TreeNextKeeps, TreeNoneArrivesTwice, TreeClassLeavesByDelay};
ghost use Rattle.tree_runs.specs.Buckets.{BucketsGrow};
ghost use Rattle.tree_runs.specs.Orders.{TreeKeptEverywhere};
ghost use Rattle.tree_runs.specs.Packets.{PacketsAreOfTrees, TreeQueuesKeepSizes, TreeQueueKeepsTotal};
ghost use Rattle.tree_runs.specs.Parts.{TreeGroupIsCut, TreePartsAreKept};
ghost use Rattle.tree_runs.specs.Stairs.{StairsGrow};
ghost use Rattle.tree_runs.specs.Unbranched.{UnbranchedTreesArePaths, PathsAreTrees};

/// What each server sees of a lawful run over trees is a lawful view, so that each law of one server holds there.
pub fn tree_views_are_lawful()
    ensures { TreeViewsAreLawful }
{}

/// What arrives of a flow at a server is what left the server on which it hangs, the link's time ago.
pub fn tree_link_carries()
    ensures { TreeLinkCarries }
{}

/// A flow keeps at each next server of its tree the curve with which it leaves this one.
pub fn tree_next_keeps()
    ensures { TreeNextKeeps }
{}

/// Where each live flow has a tree, no packet arrives twice at a server.
pub fn tree_none_arrives_twice()
    ensures { TreeNoneArrivesTwice }
{}

/// So where no packet of a class of one queue, as a queue or a flow, stays longer than d at a server of such a run, the
/// class leaves with its arrival curve, moved left by d.
pub fn tree_class_leaves_by_delay()
    ensures { TreeClassLeavesByDelay }
{}

/// In a network of trees without a cycle in which each server passes its flows' curves on, all flows keep theirs at
/// every server.
pub fn tree_kept_everywhere()
    ensures { TreeKeptEverywhere }
{}

/// Where the curves are token buckets, the bursts have to grow along the trees by the rate times the queue's delay.
pub fn buckets_grow()
    ensures { BucketsGrow }
{}

/// Where the curves are stairs, the jitters have to grow along the trees by the queue's delay.
pub fn stairs_grow()
    ensures { StairsGrow }
{}

/// No packet takes longer to the end of the link behind the last server of a branch than the sum of its flow's delays
/// at the servers of the branch, and their links.
pub fn branch_delay_from_hops()
    ensures { BranchDelayFromHops }
{}

/// No packet takes longer along a branch than the horizontal deviation of its flow's curve and the branch's service,
/// and the links.
pub fn branch_delay_from_service()
    ensures { BranchDelayFromService }
{}

/// Each packet that arrives at a server is of a live flow whose tree has the server, in the queue that the tree has
/// there, and no longer than its flow's longest packet.
pub fn packets_are_of_trees()
    ensures { PacketsAreOfTrees }
{}

/// The packets in some queues of a server, as one or all after one, are no longer than the longest packets of the flows
/// in them.
pub fn tree_queues_keep_sizes()
    ensures { TreeQueuesKeepSizes }
{}

/// A queue keeps the sum of the curves that its flows keep there.
pub fn tree_queue_keeps_total()
    ensures { TreeQueueKeepsTotal }
{}

/// The flows that come to a server over one link, from a server whose pace is limited, arrive together within a bucket
/// of the longest packet and that pace.
pub fn tree_group_is_cut()
    ensures { TreeGroupIsCut }
{}

/// A queue keeps the sum of its parts: the flows that enter there keep the sum of their curves, and those that come
/// over one link the lesser of the sum of their curves and the bucket.
pub fn tree_parts_are_kept()
    ensures { TreePartsAreKept }
{}

/// Where each server whose flows keep their curves bounds their packets' stays, and these curves grow along the trees
/// by the stays, all flows keep their curves and stays at every server, and no packet takes longer along a branch than
/// the sum of its flow's stays and of the links.
pub fn trees_are_bounded()
    ensures { TreesAreBounded }
{}

/// The same by queues: where each server bounds its queues' delays and backlogs by the curves that its flows keep, and
/// the curves grow along the trees by these delays, all hold, and so do the branches' sums of delays and links.
pub fn trees_are_bounded_by_queues()
    ensures { TreesAreBoundedByQueues }
{}

/// The same by parts: where each server bounds its queues by the sums of parts that these keep, those over a link cut
/// by the pace of the server before.
pub fn trees_are_bounded_by_parts()
    ensures { TreesAreBoundedByParts }
{}

/// A tree in which no server has two next ones is a path, and a run is lawful over such trees where it is lawful over
/// the paths, and only there.
pub fn unbranched_trees_are_paths()
    ensures { UnbranchedTreesArePaths }
{}

/// Each network of paths is one of such trees.
pub fn paths_are_trees()
    ensures { PathsAreTrees }
{}

/// A lawful run over a tree with a fork, in which a packet goes on at both of the next servers, and one that is not
/// lawful, in which it goes on at one alone.
pub fn a_fork_is_passed_by_both()
    ensures { OverAFork }
{}
