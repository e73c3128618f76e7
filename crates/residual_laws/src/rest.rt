//! The law of what any server leaves. It is the contract of a function that does nothing.

ghost use Rattle.residual_laws.specs.RestLaws.{RestServes, RestServesSince};

/// A class of packets, as a queue, is served by what all others leave, whatever the server's discipline: where
/// something of it is there, since the server's backlogged period began.
pub fn rest_serves()
    ensures served { RestServes }
    ensures since { RestServesSince }
{}
