//! How late the steps of a run are, how long a packet may be on a link, and the bits of all packets.

ghost use Rattle.std.specs.Prelude.{◌≡◌, ◌<◌, ◌^◌, length};
ghost use Rattle.net_model.specs.Networks.{NetServer};
ghost use Rattle.net_model.specs.Views.{servers_of};
ghost use Rattle.sim_bounds.specs.Horizons.{latest_of};
ghost use Rattle.run_check.specs.check_gauge.Runs.{step_end, last_time, entering_bits, total_bits};
ghost use Rattle.run_check.specs.check_gauge.Gauge.{largest_link};

use fraction128::{Frac, greater};
use net_model::{Network, Server};
use run_laws::{Run, Step};

/// The time of a step; of work the later of its start and its end.
fn step_end(step: &Step) -> Frac
    ensures { result ≡ step_end step.now }
{
    match step {
        Step::Enter { time, .. } => *time,
        Step::Reach { time, .. } => *time,
        Step::Work { start, end, .. } => greater(*start, *end),
        Step::Leave { time, .. } => *time,
        Step::Visit { time, .. } => *time,
    }
}

/// The largest time of a step; 0 where there is none.
fn latest(steps: &[Step]) -> Frac
    ensures { result ≡ latest_of step_end steps.now }
{
    let mut latest = Frac::zero();
    for i in (0..steps.len()).rev() {
        latest = greater(step_end(&steps[i]), latest);
    }
    latest
}

/// The run's end, or the largest time of a step where that is later.
pub(crate) fn last_time(run: &Run) -> Frac
    ensures { result ≡ last_time run.now }
{
    greater(run.end, latest(&run.steps))
}

/// The longest link of some servers; 0 where there is none.
fn longest(servers: &[Server]) -> Frac
    ensures { result ≡ latest_of (λ (s : NetServer). s.link) (servers_of servers.now) }
{
    let mut longest = Frac::zero();
    for i in (0..servers.len()).rev() {
        longest = greater(servers[i].link, longest);
    }
    longest
}

/// The longest link of a network; 0 where it has no server.
pub(crate) fn largest_link(net: &Network) -> Frac
    ensures { result ≡ largest_link net.now }
{
    longest(net.servers())
}

/// The bits of a packet that enters, and 0 for another step.
fn entering_bits(step: &Step) -> u32
    ensures { result ≡ entering_bits step.now }
{
    match step {
        Step::Enter { bits, .. } => *bits,
        Step::Reach { .. } => 0,
        Step::Work { .. } => 0,
        Step::Leave { .. } => 0,
        Step::Visit { .. } => 0,
    }
}

/// The bits of all packets.
pub(crate) fn total_bits(steps: &[Step]) -> u64
    requires { length steps.now < 2 ^ 32 }
    ensures { result ≡ total_bits steps.now }
{
    let mut bits = 0;
    for step in steps {
        bits += entering_bits(step) as u64;
    }
    bits
}
