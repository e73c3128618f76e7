//! Whether the gauge of a recorded run is too large.

ghost use Rattle.std.specs.Prelude.{◌≡◌, ◌↔◌, ◌<◌, ◌≤◌, ◌^◌, IfSome, IsSome, IsTrue, length};
ghost use Rattle.upp_limits.specs.Gathered.{Gathers};
ghost use Rattle.run_check.specs.check_gauge.Runs.{last_time, IsFromZero};
ghost use Rattle.run_check.specs.check_gauge.Gauge.{check_numbers, check_gauge};

use crate::check_gauge::named::{with_links_and_rates, with_steps};
use crate::check_gauge::times::{largest_link, last_time, total_bits};
use fraction128::Frac;
use net_model::Network;
use run_laws::Run;
use sim_bounds::window_numbers::{is_over, plus, with_arrivals, with_services};
use upp_limits::gathered::Gathered;

/// All numbers of a check. None only where the gauge is 2^120 or more.
fn numbers_to(net: &Network, run: &Run, end: Frac) -> Option<Gathered>
    requires end { end ≡ last_time run.now }
    requires from_zero { IsFromZero run.now }
    ensures found { IfSome result (λ g. Gathers g (check_numbers net.now run.now)) }
    ensures fits { check_gauge net.now run.now < 2 ^ 120 → IsSome result }
{
    let servers = net.servers();
    let ends = Gathered::nothing().with_time(end).with_time(run.end);
    let named = with_links_and_rates(ends, servers);
    let stepped = with_steps(named, &run.steps)?;
    let served = with_services(stepped, servers, end)?;
    with_arrivals(served, net.flows(), end)
}

/// Whether the gauge of a recorded run of a network is 2^120 or more, for a run whose times are from 0 on and which has
/// fewer than 2^32 steps; it need not be lawful. It takes no memory, and no step of it overflows, whatever the numbers
/// are. It looks at each step three times, and at each piece of a curve twice, however many copies of it start
/// before the last time.
pub fn is_too_wide(net: &Network, run: &Run) -> bool
    requires from_zero { IsFromZero run.now }
    requires few { length run.now.steps < 2 ^ 32 }
    ensures { IsTrue result ↔ (2 ^ 120 ≤ check_gauge net.now run.now) }
{
    let end = last_time(run);
    let bits = Frac::from_whole(total_bits(&run.steps) as i128);
    match plus(end, largest_link(net)) {
        None => true,
        Some(far) => match numbers_to(net, run, end) {
            None => true,
            Some(numbers) => is_over(numbers.with_value(bits).with_time(far), 1, far),
        },
    }
}
