//! Where a packet is.

ghost use Rattle.std.specs.Prelude.{◌≡◌, ◌↔◌, IsTrue, true, false};
ghost use Rattle.std.specs.List.{Any, All};
ghost use Rattle.run_packets.specs.Places.{IsLate};

use fraction128::{Frac, is_less};

/// Where a packet that has entered is.
#[derive(Clone, Copy)]
pub enum Place {
    /// It is at a server.
    At { server: u32 },
    /// It is on a link, and due at a server at a time.
    OnLink { server: u32, time: Frac },
    /// It has left the last server of its path.
    Gone,
}

/// Whether the packet in this place is due at a server at a time.
pub fn is_due(place: &Place, server: u32, time: Frac) -> bool
    ensures { IsTrue result ↔ (place.now ≡ Place.OnLink server time) }
{
    match place {
        Place::OnLink {
            server: to,
            time: at,
        } => *to == server && *at == time,
        Place::At { .. } => false,
        Place::Gone => false,
    }
}

/// Whether the packet in this place is on a link, and due by a time.
fn is_late(place: &Place, end: Frac) -> bool
    ensures { IsTrue result ↔ IsLate end place.now }
{
    match place {
        Place::OnLink { time, .. } => !is_less(end, *time),
        Place::At { .. } => false,
        Place::Gone => false,
    }
}

/// Whether any of the packets in these places is on a link, and due by a time.
pub fn some_late(places: &[Place], end: Frac) -> bool
    ensures late { result ≡ true → Any (IsLate end) places.now }
    ensures none { result ≡ false → All (λ x. ¬ IsLate end x) places.now }
{
    for place in places {
        if is_late(place, end) {
            return true;
        }
    }
    false
}
