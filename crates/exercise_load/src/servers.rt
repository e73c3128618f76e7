//! The servers.

ghost use Rattle.std.specs.Prelude.{◌≡◌, ◌<◌, map, IfOk};
ghost use Rattle.std.specs.List.{range_with_len};
ghost use Rattle.std.specs.String.{string_bytes};
ghost use Rattle.upp_curve.specs.Kinds.{rate_latency};
ghost use Rattle.net_model.specs.Views as model;
ghost use Rattle.exercise_load.specs.Workloads as loads;

use curve_library::{CurveFault, rate_latency};
use fraction128::Frac;
use net_model::{Discipline, Server, ServiceKind};
use std::alloc::{AllocError, Global};
use upp_curve::Curve;

const SERVERS: u32 = 16;

const RATE: u64 = 100;

const LATENCY: u64 = 10;

const QUANTUM: u64 = 12_000;

fn name_of(alloc: Global, number: u32) -> Result<String, AllocError>
    ensures { IfOk result (λ s. string_bytes s ≡ loads.numbered 115 number) }
{
    format!(in alloc; "s{number}")
}

fn discipline_of(alloc: Global, number: u32) -> Result<Discipline, AllocError>
    ensures { IfOk result (λ d. model.discipline_of d ≡ loads.discipline_of number) }
{
    match number % 3 {
        0 => Ok(Discipline::Fifo),
        1 => Ok(Discipline::Priority { queues: 2 }),
        _ => Ok(Discipline::Drr {
            quanta: Vec::from_slice(alloc, &[QUANTUM, QUANTUM])?,
        }),
    }
}

// The service curve, which is within all limits.
fn service(alloc: Global) -> Result<Curve, AllocError>
    ensures { IfOk result (λ c. c ≡ rate_latency (loads.whole 100) (loads.whole 10)) }
{
    match rate_latency(alloc, Frac::from(RATE), Frac::from(LATENCY)) {
        Ok(made) => Ok(made),
        Err(fault) => match fault {
            CurveFault::NoMemory => Err(AllocError),
            _ => unreachable!(),
        },
    }
}

fn server_at(alloc: Global, number: u32) -> Result<Server, AllocError>
    ensures { IfOk result (λ s. model.server_of s ≡ loads.server number) }
{
    Ok(Server {
        name: name_of(alloc, number)?,
        rate: Frac::from(RATE),
        kind: ServiceKind::Latency(Frac::from(LATENCY)),
        service: service(alloc)?,
        link: Frac::zero(),
        discipline: discipline_of(alloc, number)?,
    })
}

/// All servers of a workload, by their numbers.
pub(crate) fn servers(alloc: Global) -> Result<Vec<Server>, AllocError>
    ensures { IfOk result (λ v. model.servers_of v.items ≡ map loads.server (range_with_len 0 16)) }
{
    let mut made = Vec::with_capacity(alloc, SERVERS as usize)?;
    for number in 0..SERVERS {
        made.push(server_at(alloc, number)?)?;
    }
    Ok(made)
}
