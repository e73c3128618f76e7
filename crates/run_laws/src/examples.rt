ghost use Rattle.run_laws.specs.Examples.{OnePacketReachesItsBound, WorkPastTheBits, Overtaking, LeftComplete, BothOrders, OverALink, Priorities, Quanta, CutInWork, UnknownFlow, DeadFlow};

/// A lawful run that keeps its curves and whose delay is the bound: the premises of the laws can be met.
pub fn one_packet_reaches_its_bound()
    ensures { OnePacketReachesItsBound }
{}

/// More work than a packet has bits is not lawful.
pub fn work_past_the_bits_is_refused()
    ensures { WorkPastTheBits }
{}

/// A packet that overtakes another in its queue is not lawful.
pub fn overtaking_is_refused()
    ensures { Overtaking }
{}

/// A packet that is worked off and does not leave is not lawful.
pub fn left_complete_is_refused()
    ensures { LeftComplete }
{}

/// Two steps of one time are lawful in both orders.
pub fn both_orders_are_lawful()
    ensures { BothOrders }
{}

/// A packet on a link reaches the next server when it is due.
pub fn a_link_is_passed_in_time()
    ensures { OverALink }
{}

/// A priority server works its first queue first.
pub fn the_first_queue_goes_first()
    ensures { Priorities }
{}

/// Deficit round robin goes by visits, and visits go by the list.
pub fn visits_go_by_the_list()
    ensures { Quanta }
{}

/// A run may end in the middle of the work on a packet, whose delay is then counted up to the end.
pub fn a_run_may_be_cut_in_work()
    ensures { CutInWork }
{}

/// A packet of a flow that the network does not have is not lawful.
pub fn an_unknown_flow_is_refused()
    ensures { UnknownFlow }
{}

/// A packet of a flow that is not live is not lawful.
pub fn a_dead_flow_is_refused()
    ensures { DeadFlow }
{}
