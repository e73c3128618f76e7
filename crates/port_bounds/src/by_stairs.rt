//! The delay and the backlog of each queue of a port, by stairs.

ghost use Rattle.std.specs.Prelude.{◌≡◌, ◌<◌, Some, length, IfOk};
ghost use Rattle.port_bounds.specs.Incoming.{incoming};
ghost use Rattle.port_bounds.specs.StairsIncoming.{AreStairsInRange, ArriveAt, line_incomings, stairs_at, stairs_in};
ghost use Rattle.port_bounds.specs.StairPromises.{StairRowsAreHeld};
ghost use Rattle.port_bounds.specs.StairRows.{IsStairRow, AreStairRows};
ghost use Rattle.tree_network.specs.Networks.{PortIsInRange, queues_of};

use crate::arrivals::{Arrivals, GRAINS};
use crate::services::services_of;
use crate::stair_arrivals::StairArrivals;
use arrival_lines::{Queue, steps};
use arrival_stairs::{Bundle, stair_queue};
use std::alloc::{AllocError, Global};
use tree_network::Port;

/// What is promised of queue q, at which these bundles arrive.
fn known_row(
    alloc: Global,
    port: &Port,
    queues: &[StairArrivals],
    by_lines: &[Arrivals],
    q: usize,
    bundles: &[Bundle],
) -> Result<Option<Queue>, AllocError>
    requires arriving { ArriveAt port.now queues.now by_lines.now }
    requires inside { q < length queues.now }
    requires known { (stairs_at (stairs_in queues.now) q).bundles ≡ Some bundles.now }
    requires some { 0 < (stairs_at (stairs_in queues.now) q).longest }
    ensures { IfOk result (IsStairRow port.now (stairs_in queues.now) q) }
{
    match &by_lines[q].parts {
        None => Ok(None),
        Some(parts) => {
            let lines = steps(alloc, parts)?;
            let services = services_of(alloc, port, by_lines, q)?;
            let row = stair_queue(
                alloc,
                bundles,
                &lines,
                &services,
                queues[q].longest * GRAINS,
            )?;
            Ok(row)
        }
    }
}

/// What is promised of queue q.
fn stair_row(
    alloc: Global,
    port: &Port,
    queues: &[StairArrivals],
    by_lines: &[Arrivals],
    q: usize,
) -> Result<Option<Queue>, AllocError>
    requires arriving { ArriveAt port.now queues.now by_lines.now }
    requires inside { q < length queues.now }
    ensures { IfOk result (IsStairRow port.now (stairs_in queues.now) q) }
{
    if queues[q].longest == 0 {
        return Ok(Some(Queue {
            delay: 0,
            backlog: 0,
        }));
    }
    match &queues[q].bundles {
        None => Ok(None),
        Some(bundles) => {
            let row = known_row(alloc, port, queues, by_lines, q, bundles)?;
            Ok(row)
        }
    }
}

/// What is promised of each queue of the port, where these are its arrivals by their lines; none where nothing bounds what arrives there, or
/// no service bounds its delay.
pub fn stair_rows(
    alloc: Global,
    port: &Port,
    queues: &[StairArrivals],
    by_lines: &[Arrivals],
) -> Result<Vec<Option<Queue>>, AllocError>
    requires port { PortIsInRange port.now }
    requires count { length queues.now ≡ queues_of port.now.discipline }
    requires range { AreStairsInRange (stairs_in queues.now) }
    requires lines { incoming by_lines.now ≡ line_incomings (stairs_in queues.now) }
    requires same { length by_lines.now ≡ length queues.now }
    ensures { IfOk result (λ v. AreStairRows port.now (stairs_in queues.now) v.items) }
{
    let mut rows = Vec::with_capacity(alloc, queues.len())?;
    for q in 0..queues.len() {
        rows.push(stair_row(alloc, port, queues, by_lines, q)?)?;
    }
    Ok(rows)
}

/// What a row promises holds in every lawful view of the port: a law.
pub fn stair_rows_are_held()
    ensures { StairRowsAreHeld }
{}
