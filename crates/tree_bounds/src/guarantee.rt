//! Networks of ports and multicast links as runs over trees know them, and what their bounds promise of every lawful
//! run.
//!
//! A law is the contract of a function that does nothing: its body is empty, and its `ensures` is proved.

ghost use Rattle.tree_bounds.specs.guarantee.Causes.{NoneHasACause};
ghost use Rattle.tree_bounds.specs.guarantee.Guarantee.{TablesAreGuaranteed};
ghost use Rattle.tree_bounds.specs.guarantee.Loads.{LoadAboveRateHasNone, NoneHasALoadOrLimit, OverloadIsLoad};
ghost use Rattle.tree_bounds.specs.guarantee.Roots.{NoneHasARoot};
ghost use Rattle.tree_bounds.specs.guarantee.Routes.{NetworksAreTrees, OrdersGoForward};

/// The links of a network in range are trees of its ports.
pub fn networks_are_trees()
    ensures { NetworksAreTrees }
{}

/// Where the ports have an order in which no link goes back, the trees of runs go forward.
pub fn orders_go_forward()
    ensures { OrdersGoForward }
{}

/// What a table of a network promises of every lawful run over it whose links keep their frames, gaps and jitters and
/// whose ports keep their service curves: no frame stays longer at a queue than its delay, no queue holds more bits than
/// its backlog, and no frame takes longer from its entry to the end of the link behind a port of its tree than the bound
/// there. Where the table has no number nothing is promised.
pub fn tables_are_guaranteed()
    ensures { TablesAreGuaranteed }
{}

/// Where a table has no number for a queue: nothing bounds what comes there or what may be served before it, or each
/// service is slower than its links and these are with those that may be served before too fast for the port, or no service
/// has a delay below 2^50 picoseconds.
pub fn none_has_a_cause()
    ensures { NoneHasACause }
{}

/// Where a table has no number for a queue there is a root of it: at that port, or at one before it on the trees of links,
/// a queue is overloaded, or each of its delays is of 2^50 picoseconds or more, or a number passes its limit.
pub fn none_has_a_root()
    ensures { NoneHasARoot }
{}

/// A queue whose load is above its rate, as its discipline has it, has no number in a table. The load is the rates of the links
/// that pass the queue, each a frame with its overhead over its gap, in grains of 1/1024 bit a second, rounded up; the rate is the
/// port's, or what its gate leaves of it. First in, first out: the queue's load is above the rate. Of priorities: the loads of the
/// queues above it and its own together are (Le Boudec and Thiran, residual service). Of deficit round robin: its own is above its
/// share by the quanta, and that of all queues together is above the rate (Bouillard, Boyer and Le Corronc, deficit round robin).
pub fn loads_above_rates_have_none()
    ensures { LoadAboveRateHasNone }
{}

/// An overload, which may be the root of a queue without a number, is a load above the rate.
pub fn overloads_are_loads()
    ensures { OverloadIsLoad }
{}

/// A queue has no number in a table only by a load or by a limit: its load is above its rate, or each of its delays is of 2^50
/// picoseconds or more, or a number passes its limit at it or at one of its port that may be served before it (of deficit round
/// robin any other); or so on at a queue without a number from which a link comes to one of these. So where no load of a network is
/// above its rate, only limits are left.
pub fn none_has_a_load_or_limit()
    ensures { NoneHasALoadOrLimit }
{}
