//! What one row does to the site of its server.

ghost use Rattle.std.specs.Prelude.{◌≡◌, ◌<◌, ◌↔◌, ◌⊎◌, ℕ, None, Some, length, slice_get, IsTrue};
ghost use Rattle.rational.specs.Rational.{◌<ℚ◌};
ghost use Rattle.run_check.specs.declared.site.Site.{Site as SpecSite};
ghost use Rattle.run_check.specs.Sites.{KeepsSome, MayTake, WorkRoom};
ghost use Rattle.run_check.specs.Rows.{ChangesAt, Visited, Left, Worked, Arrived};

use crate::broken_laws::Law;
use crate::site::{Known, Piece, Site};
use fraction128::Frac;

/// Whether a time is before the last step of a server, or after the end of the run.
pub(crate) fn is_out_at(sites: &[Site], server: u32, end: Frac, time: Frac) -> bool
    requires { server < length sites.now }
    ensures { (x : SpecSite) → slice_get sites.now server ≡ Some x
        → IsTrue result ↔ ((time <ℚ x.latest) ⊎ (end <ℚ time)) }
{
    sites[server as usize].is_out_of_time(end, time)
}

/// A visit.
pub(crate) fn visit_row(
    sites: &mut [Site],
    server: u32,
    end: Frac,
    queue: u32,
    time: Frac,
) -> Option<Law>
    requires known { server < length sites.old }
    requires some { (x : SpecSite) → slice_get sites.old server ≡ Some x → KeepsSome x }
    ensures { ChangesAt (Visited end queue time result) sites.old sites.new server }
{
    sites[server as usize].visit_at(end, queue, time)
}

/// A packet leaves.
pub(crate) fn leave_row(
    sites: &mut [Site],
    server: u32,
    end: Frac,
    known: bool,
    packet: u32,
    time: Frac,
) -> Option<Law>
    requires known { server < length sites.old }
    requires some { (x : SpecSite) → slice_get sites.old server ≡ Some x → KeepsSome x }
    ensures { ChangesAt (Left end known packet time result) sites.old sites.new server }
{
    sites[server as usize].leave_at(end, known, packet, time)
}

/// Work.
pub(crate) fn work_row(
    sites: &mut [Site],
    server: u32,
    end: Frac,
    known: &Known,
    piece: &Piece,
) -> Option<Law>
    requires known { server < length sites.old }
    requires some { (x : SpecSite) → slice_get sites.old server ≡ Some x → KeepsSome x }
    requires room { (x : SpecSite) → slice_get sites.old server ≡ Some x → WorkRoom x known.now.fresh piece.now }
    ensures { ChangesAt (Worked end known.now.entered known.now.fresh known.now.pace piece.now result)
        sites.old sites.new server }
{
    sites[server as usize].work_at(end, known, piece)
}

/// A packet arrives.
pub(crate) fn arrive_row(
    sites: &mut [Site],
    server: u32,
    packet: u32,
    queue: u32,
    bits: u32,
    time: Frac,
)
    requires known { server < length sites.old }
    requires take { (x : SpecSite) → slice_get sites.old server ≡ Some x → MayTake x packet queue }
    ensures { ChangesAt (Arrived packet queue bits time) sites.old sites.new server }
{
    sites[server as usize].arrive(packet, queue, bits, time);
}
