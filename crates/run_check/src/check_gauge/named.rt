//! The numbers that servers and the steps of a run name: times, bits of works, rates and paces.

ghost use Rattle.std.specs.Prelude.{◌≡◌, pos, IfSome, IsSome};
ghost use Rattle.rational.specs.Rational.{int, ◌-ℚ◌, ◌/ℚ◌, ◌<ℚ◌};
ghost use Rattle.upp_limits.specs.Gathered.{Gathers};
ghost use Rattle.upp_limits.specs.Limits.{Numbers, joined};
ghost use Rattle.net_model.specs.Views.{server_of, servers_of};
ghost use Rattle.run_check.specs.check_gauge.Named.{link_and_rate, links_and_rates, work_numbers, step_numbers, steps_numbers};
ghost use Rattle.run_check.specs.check_gauge.Paces.{WorkFits, PaceFits, PacesFit};

use fraction128::{Frac, is_less};
use net_model::Server;
use run_laws::Step;
use sim_bounds::window_numbers::{minus, over};
use upp_limits::gathered::Gathered;

/// The link and the rate of a server more.
fn with_link_and_rate(g: Gathered, server: &Server) -> Gathered
    ensures { (n : Numbers) → Gathers g n → Gathers result (joined n (link_and_rate (server_of server.now))) }
{
    g.with_time(server.link).with_slope(server.rate)
}

/// The links and the rates of servers more.
pub(crate) fn with_links_and_rates(g: Gathered, servers: &[Server]) -> Gathered
    ensures { (n : Numbers) → Gathers g n → Gathers result (joined n (links_and_rates (servers_of servers.now))) }
{
    let mut found = g;
    for server in servers {
        found = with_link_and_rate(found, server);
    }
    found
}

/// The pace of a work that takes time.
fn pace(start: Frac, end: Frac, bits: Frac) -> Option<Frac>
    requires { start <ℚ end }
    ensures value { IfSome result (λ p. p ≡ bits /ℚ (end -ℚ start)) }
    ensures fits { WorkFits start end bits → IsSome result }
{
    match minus(end, start) {
        Some(time) => over(bits, time),
        None => None,
    }
}

/// The times and the bits of a work more, and its pace where it takes time.
fn with_work(g: Gathered, start: Frac, end: Frac, bits: Frac) -> Option<Gathered>
    ensures value { IfSome result (λ r. (n : Numbers) → Gathers g n
        → Gathers r (joined n (work_numbers start end bits))) }
    ensures fits { (start <ℚ end → WorkFits start end bits) → IsSome result }
{
    let named = g.with_time(start).with_time(end).with_value(bits);
    if is_less(start, end) {
        match pace(start, end, bits) {
            Some(pace) => Some(named.with_slope(pace)),
            None => None,
        }
    } else {
        Some(named)
    }
}

/// The numbers of a step more.
fn with_step(g: Gathered, step: &Step) -> Option<Gathered>
    ensures value { IfSome result (λ r. (n : Numbers) → Gathers g n → Gathers r (joined n (step_numbers step.now))) }
    ensures fits { PaceFits step.now → IsSome result }
{
    match step {
        Step::Enter { time, .. } => Some(g.with_time(*time)),
        Step::Reach { time, .. } => Some(g.with_time(*time)),
        Step::Work {
            start,
            end,
            bits,
            ..
        } => with_work(g, *start, *end, *bits),
        Step::Leave { time, .. } => Some(g.with_time(*time)),
        Step::Visit { time, .. } => Some(g.with_time(*time)),
    }
}

/// The numbers of all steps more.
pub(crate) fn with_steps(g: Gathered, steps: &[Step]) -> Option<Gathered>
    ensures value { IfSome result (λ r. (n : Numbers) → Gathers g n → Gathers r (joined n (steps_numbers steps.now))) }
    ensures fits { PacesFit steps.now → IsSome result }
{
    let mut found = g;
    for step in steps {
        match with_step(found, step) {
            Some(more) => found = more,
            None => return None,
        }
    }
    Some(found)
}
