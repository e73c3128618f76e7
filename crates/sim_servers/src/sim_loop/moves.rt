//! What steps do to stations.

ghost use Rattle.std.specs.Prelude.{◌≡◌, ◌<◌, Some, length, slice_get};
ghost use Rattle.sim_servers.specs.declared.station.Station.{Station as SpecStation};
ghost use Rattle.sim_servers.specs.Openings.{opening_for, OpeningRoom};
ghost use Rattle.queue_sched.specs.Turns.{IsIdle};
ghost use Rattle.sim_servers.specs.Queues.{StandFor};
ghost use Rattle.sim_servers.specs.Stations.{MayTake, MayLose};
ghost use Rattle.sim_servers.specs.sim_loop.Moves.{HasTaken, HasLost, HasTurned, HasWorked, MayWorkOn};

use crate::{Station, Stretch};
use fraction128::Frac;
use queue_sched::{Scheduler, Turn};

/// A packet arrives at a server.
pub fn arrive_at(
    stations: &mut [Station],
    server: u32,
    packet: u32,
    queue: u32,
    bits: u32,
    time: Frac,
)
    requires known { server < length stations.old }
    requires take { (x : SpecStation) → slice_get stations.old server ≡ Some x → MayTake x packet queue time }
    requires room { (x : SpecStation) → slice_get stations.old server ≡ Some x
        → OpeningRoom (opening_for x.opening) time }
    ensures { HasTaken stations.old stations.new server packet queue bits time }
{
    stations[server as usize].arrive(packet, queue, bits, time);
}

/// The packet under way leaves a server.
pub fn leave_at(stations: &mut [Station], server: u32, time: Frac) -> u32
    requires known { server < length stations.old }
    requires lose { (x : SpecStation) → slice_get stations.old server ≡ Some x → MayLose x time }
    requires room { (x : SpecStation) → slice_get stations.old server ≡ Some x
        → OpeningRoom (opening_for x.opening) time }
    ensures { HasLost stations.old stations.new server time result }
{
    stations[server as usize].leave(time)
}

/// The next turn of a server with no packet under way.
pub fn turn_at(stations: &mut [Station], server: u32) -> Option<Turn>
    requires known { server < length stations.old }
    requires idle { (x : SpecStation) → slice_get stations.old server ≡ Some x → IsIdle (StandFor x.queues) }
    ensures { HasTurned stations.old stations.new server result }
{
    stations[server as usize].queues.start()
}

/// A server works on a packet.
pub fn work_at(
    stations: &mut [Station],
    server: u32,
    packet: u32,
    start: Frac,
    left: Frac,
) -> Stretch
    requires known { server < length stations.old }
    requires may { (x : SpecStation) → slice_get stations.old server ≡ Some x → MayWorkOn x start left }
    ensures { HasWorked stations.old stations.new server packet start left result }
{
    stations[server as usize].work(packet, start, left)
}
