ghost use Rattle.net_model.specs.net_graph.OrderLaws.{OneOrder, OneCycle, OrderHasEachServer, OrderGoesForward, OneOfBoth, OrderOrCycle};

/// A network has one order at most.
pub fn one_order()
    ensures { OneOrder }
{}

/// Of a network one cycle at most is told.
pub fn one_cycle()
    ensures { OneCycle }
{}

/// Each server stands in an order exactly once, and nothing else does.
pub fn order_has_each_server()
    ensures { OrderHasEachServer }
{}

/// In an order each server stands after those that some flow passes right before it.
pub fn order_goes_forward()
    ensures { OrderGoesForward }
{}

/// An accepted network has an order or a cycle, and never both: with an order it has no closed walk.
pub fn order_or_cycle()
    ensures one { OneOfBoth }
    ensures not_both { OrderOrCycle }
{}
