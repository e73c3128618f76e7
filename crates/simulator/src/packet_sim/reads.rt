//! What is looked up for a step.

ghost use Rattle.std.specs.Prelude.{◌≡◌, ◌<◌, Some, length, map, slice_get};
ghost use Rattle.net_model.specs.stated_runs.Setups.{Setup, packet_of};
ghost use Rattle.net_model.specs.stated_runs.FromTraces.{entering};
ghost use Rattle.sim_servers.specs.declared.station.Station.{Station as SpecStation};
ghost use Rattle.sim_servers.specs.Stations.{rest_for};

use fraction128::Frac;
use net_model::{Trace, TracePacket};
use sim_servers::{Rest, Station, rest_of};

/// The packet of a number.
pub(crate) fn packet_at(trace: &Trace, number: u32) -> TracePacket
    requires { number < length trace.now.packets }
    ensures { (S : Setup) → S.packets ≡ map entering trace.now.packets → packet_of S number ≡ entering result }
{
    trace.packets()[number as usize]
}

/// The rate of a server.
pub(crate) fn rate_at(stations: &[Station], server: u32) -> Frac
    requires { server < length stations.now }
    ensures { (x : SpecStation) → slice_get stations.now server ≡ Some x → result ≡ x.rate }
{
    stations[server as usize].rate
}

/// The work that goes on at a server, if that is due there.
pub(crate) fn rest_at(stations: &[Station], server: u32) -> Option<Rest>
    requires { server < length stations.now }
    ensures { (x : SpecStation) → slice_get stations.now server ≡ Some x → result ≡ rest_for x.next }
{
    rest_of(&stations[server as usize].next)
}
