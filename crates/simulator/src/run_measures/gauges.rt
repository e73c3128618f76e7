//! The gauges of all queues.

ghost use Rattle.std.specs.Prelude.{◌≡◌, ◌≤◌, IfOk, map};
ghost use Rattle.net_model.specs.Views.{server_of};
ghost use Rattle.simulator.specs.run_measures.Gauges.{Gains, Loses, HasGauge, HasRoom, ChangesOne};
ghost use Rattle.simulator.specs.run_measures.Gauges.{gauge_in, gauges_of, with_gauge, empty_row_of, peak_of};
ghost use Rattle.simulator.specs.run_measures.Peaks.{rows_of};

use crate::run_measures::gauge::Gauge;
use fraction128::Frac;
use net_model::{Network, Server};
use std::alloc::{AllocError, Global};

/// The gauges of a server in which no packet has been.
fn empty_row(alloc: Global, server: &Server) -> Result<Vec<Gauge>, AllocError>
    ensures { IfOk result (λ v. v.items ≡ empty_row_of (server_of server.now)) }
{
    let queues = server.discipline.queue_count();
    vec![in alloc; Gauge::empty(); queues]
}

/// Those of all servers.
pub(crate) fn empty_rows(alloc: Global, net: &Network) -> Result<Vec<Vec<Gauge>>, AllocError>
    ensures { IfOk result (λ v. gauges_of v.items ≡ map empty_row_of net.now.servers) }
{
    let mut rows = Vec::new(alloc);
    for server in net.servers() {
        rows.push(empty_row(alloc, server)?)?;
    }
    Ok(rows)
}

/// The gauge of a queue.
fn gauge_at(rows: &[Vec<Gauge>], server: u32, queue: u32) -> Gauge
    requires { HasGauge (gauges_of rows.now) server queue }
    ensures { result ≡ gauge_in (gauges_of rows.now) server queue }
{
    rows[server as usize][queue as usize]
}

/// Puts a gauge in its place.
fn put(rows: &mut [Vec<Gauge>], server: u32, queue: u32, gauge: Gauge)
    requires { HasGauge (gauges_of rows.old) server queue }
    ensures { gauges_of rows.new ≡ with_gauge (gauges_of rows.old) server queue gauge }
{
    rows[server as usize][queue as usize] = gauge;
}

/// A packet arrives.
pub(crate) fn arrive(rows: &mut [Vec<Gauge>], server: u32, queue: u32, bits: u32, time: Frac)
    requires has { HasGauge (gauges_of rows.old) server queue }
    requires fits { HasRoom (gauge_in (gauges_of rows.old) server queue) bits }
    ensures { ChangesOne (λ g h. Gains g h bits time) (gauges_of rows.old) (gauges_of rows.new) server queue }
{
    let gauge = gauge_at(rows, server, queue);
    put(rows, server, queue, gauge.gained(bits, time));
}

/// A packet leaves.
pub(crate) fn leave(rows: &mut [Vec<Gauge>], server: u32, queue: u32, bits: u32, time: Frac)
    requires has { HasGauge (gauges_of rows.old) server queue }
    requires held { bits ≤ (gauge_in (gauges_of rows.old) server queue).present }
    ensures { ChangesOne (λ g h. Loses g h bits time) (gauges_of rows.old) (gauges_of rows.new) server queue }
{
    let gauge = gauge_at(rows, server, queue);
    put(rows, server, queue, gauge.lost(bits, time));
}

/// The peaks of a row.
fn peaks_in(alloc: Global, row: &[Gauge]) -> Result<Vec<u64>, AllocError>
    ensures { IfOk result (λ v. v.items ≡ map peak_of row.now) }
{
    row.iter().map(|gauge| gauge.peak).collect(alloc)
}

/// The peaks of all rows.
pub(crate) fn peaks_of(alloc: Global, rows: &[Vec<Gauge>]) -> Result<Vec<Vec<u64>>, AllocError>
    ensures { IfOk result (λ v. rows_of v.items ≡ map (map peak_of) (gauges_of rows.now)) }
{
    let mut peaks = Vec::new(alloc);
    for row in rows {
        peaks.push(peaks_in(alloc, row)?)?;
    }
    Ok(peaks)
}
