//! What a network's table of curves and numbers promises of every run of the network.
//!
//! A law is the contract of a function that does nothing: its body is empty, and its `ensures` is proved.
#![tactic(auto)]

ghost use Rattle.net_bounds.specs.Guarantee.{TableBoundsEveryRun};
ghost use Rattle.net_bounds.specs.OneServer.{ServerKeeps};

/// In every lawful run of an accepted network without a cycle that keeps its premises, by a table that meets the
/// network's equations: flows come to hops and queues, and leave hops, with its curves; flows, queues and paths are
/// served by its curves; no delay at a hop, in a queue or from end to end, and no backlog, is above the number for it.
/// An infinite number claims nothing.
pub fn table_bounds_every_run()
    ensures { TableBoundsEveryRun }
{}

/// In such a run and by such a table, where the flows keep their curves at one server, what the table says of that
/// server's queues and hops is kept, also in a network with a cycle: what they are served, how long packets stay, what is
/// there, and with what flows leave.
pub fn server_keeps()
    ensures { ServerKeeps }
{}
