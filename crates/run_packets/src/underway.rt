//! The packet under way at a server.

ghost use Rattle.std.specs.Prelude.{◌≡◌, ◌↔◌, IsTrue};
ghost use Rattle.run_packets.specs.Works.{IsOther, MayGo, is_worked_off, rest_of};

use fraction128::Frac;

/// The packet under way at a server.
#[derive(Clone, Copy)]
pub struct Underway {
    /// Its number in the run.
    pub packet: u32,
    /// How many of its bits are yet to be worked, in the unit of data of the run's network.
    pub left: Frac,
    /// When the last of its works so far ends, in the unit of time of that network.
    pub end: Frac,
}

/// Whether another packet is under way.
pub fn is_other(under: &Option<Underway>, packet: u32) -> bool
    ensures { IsTrue result ↔ IsOther under.now packet }
{
    match under {
        Some(under) => under.packet != packet,
        None => false,
    }
}

/// Whether the packet is under way, worked off, and this is the end of its last work.
pub fn may_leave(under: &Option<Underway>, packet: u32, time: Frac) -> bool
    ensures { IsTrue result ↔ MayGo under.now packet time }
{
    match under {
        Some(under) => under.packet == packet && under.left == Frac::zero() && under.end == time,
        None => false,
    }
}

/// Whether the packet under way is worked off.
pub fn is_complete(under: &Option<Underway>) -> bool
    ensures { IsTrue result ↔ is_worked_off under.now }
{
    match under {
        Some(under) => under.left == Frac::zero(),
        None => false,
    }
}

/// The bits that are yet to be worked: of the packet under way, where there is one, and else `fresh`.
pub fn rest(under: &Option<Underway>, fresh: Frac) -> Frac
    ensures { result ≡ rest_of under.now fresh }
{
    match under {
        Some(under) => under.left,
        None => fresh,
    }
}
