//! The horizon: no time of a simulation is past it.

ghost use Rattle.std.specs.Prelude.{◌≡◌, ◌<◌, ℕ, pos, IfSome, IsSome, length};
ghost use Rattle.std.specs.List.{AllByRecursion};
ghost use Rattle.rational.specs.Rational.{ℚ, int, ◌+ℚ◌, ◌*ℚ◌, ◌≤ℚ◌};
ghost use Rattle.rational.specs.Ratio.{SumFits};
ghost use Rattle.fraction128.specs.wide_sums.Sums.{IsFromZero, sum_of_products};
ghost use Rattle.net_model.specs.stated_runs.FromTraces.{setup_of, IsTraceOf};
ghost use Rattle.sim_bounds.specs.Horizons.{first_time, sum_below, horizon};
ghost use Rattle.sim_bounds.specs.Way.{open_time, gated, plain_span, HorizonFits};

use crate::sim_gauge::loads::load;
use crate::sim_gauge::spans::{gate_product, no_product, plain_time, stalled, work_time};
use crate::window_numbers::plus;
use arrayvec::ArrayVec;
use fraction128::wide_sums::{MOST_PRODUCTS, Product, sum_of_products};
use fraction128::{Frac, greater};
use net_model::{Network, ServiceKind, Trace};

/// The latest of the times at which packets enter and stalls end, and 0 where there is none.
fn first_time(net: &Network, trace: &Trace) -> Frac
    requires { IsTraceOf net.now trace.now }
    ensures { result ≡ first_time (setup_of net.now trace.now) }
{
    let mut latest = Frac::zero();
    for packet in trace.packets() {
        latest = greater(latest, packet.time);
    }
    for stall in trace.stalls() {
        latest = greater(latest, stall.end);
    }
    latest
}

/// What a server's span is made of, but for a gate's work: its work or its cycle, its stalls, and its link.
fn span_with(plain: Frac, stalled: Frac, link: Frac) -> Option<Frac>
    ensures value { IfSome result (λ t. t ≡ plain +ℚ stalled +ℚ link) }
    ensures fits { SumFits plain stalled → SumFits (plain +ℚ stalled) link → IsSome result }
{
    match plus(plain, stalled) {
        Some(closed) => plus(closed, link),
        None => None,
    }
}

/// How long a server would work on all packets that pass it if it were always open.
fn open_time(net: &Network, trace: &Trace, server: u32) -> Option<Frac>
    requires { server < length net.now.servers }
    ensures value { IfSome result (λ t. t ≡ open_time (setup_of net.now trace.now) server) }
    ensures from_zero { IfSome result (λ t. int (pos 0) ≤ℚ t) }
    ensures fits { (d : ℕ) (e : ℚ) → HorizonFits (setup_of net.now trace.now) d e → IsSome result }
{
    let bits = load(net, trace, server);
    work_time(net.servers()[server as usize].rate, bits)
}

/// The span of a server, but for a gate's work.
fn plain_span(net: &Network, trace: &Trace, server: u32) -> Option<Frac>
    requires { server < length net.now.servers }
    ensures value { IfSome result (λ t. t ≡ plain_span (setup_of net.now trace.now) server) }
    ensures fits { (d : ℕ) (e : ℚ) → HorizonFits (setup_of net.now trace.now) d e → IsSome result }
{
    let found = &net.servers()[server as usize];
    match open_time(net, trace, server) {
        Some(time) => match stalled(trace.stalls(), server) {
            Some(stalled) => span_with(plain_time(&found.kind, time), stalled, found.link),
            None => None,
        },
        None => None,
    }
}

/// The plain span of a server more.
fn with_span(sum: Frac, net: &Network, trace: &Trace, server: u32) -> Option<Frac>
    requires { server < length net.now.servers }
    ensures value { IfSome result (λ t. t ≡ sum +ℚ plain_span (setup_of net.now trace.now) server) }
    ensures fits { (d : ℕ) (e : ℚ) → HorizonFits (setup_of net.now trace.now) d e
        → SumFits sum (plain_span (setup_of net.now trace.now) server) → IsSome result }
{
    match plain_span(net, trace, server) {
        Some(span) => plus(sum, span),
        None => None,
    }
}

/// The first time and the spans of all servers, but for the work of gates.
fn plain_horizon(net: &Network, trace: &Trace) -> Option<Frac>
    requires { IsTraceOf net.now trace.now }
    ensures value { IfSome result (λ t. t ≡ first_time (setup_of net.now trace.now)
        +ℚ sum_below (plain_span (setup_of net.now trace.now)) (length net.now.servers)) }
    ensures fits { (d : ℕ) (e : ℚ) → HorizonFits (setup_of net.now trace.now) d e → IsSome result }
{
    let mut sum = first_time(net, trace);
    for server in 0..net.servers().len() {
        match with_span(sum, net, trace, server as u32) {
            Some(more) => sum = more,
            None => return None,
        }
    }
    Some(sum)
}

/// How long a server works as a gate, as a product: its cycle over its slot, times the time that its bits take when it
/// is open. Where there is no gate the product is 0.
fn gated(net: &Network, trace: &Trace, server: u32) -> Option<Product>
    requires { server < length net.now.servers }
    ensures value { IfSome result (λ p. p.left *ℚ p.right ≡ gated (setup_of net.now trace.now) server) }
    ensures from_zero { IfSome result IsFromZero }
    ensures fits { (d : ℕ) (e : ℚ) → HorizonFits (setup_of net.now trace.now) d e → IsSome result }
{
    match &net.servers()[server as usize].kind {
        ServiceKind::Gate { cycle, slot } => match open_time(net, trace, server) {
            Some(time) => gate_product(*cycle, *slot, time),
            None => None,
        },
        ServiceKind::Latency(_) => Some(no_product()),
        ServiceKind::Listed => Some(no_product()),
    }
}

/// How long each server works as a gate.
fn all_gated(net: &Network, trace: &Trace) -> Option<ArrayVec<Product, MOST_PRODUCTS>>
    ensures value { IfSome result (λ ps.
        sum_of_products ps.items ≡ sum_below (gated (setup_of net.now trace.now)) (length net.now.servers)) }
    ensures from_zero { IfSome result (λ ps. AllByRecursion IsFromZero ps.items) }
    ensures fits { (d : ℕ) (e : ℚ) → HorizonFits (setup_of net.now trace.now) d e → IsSome result }
{
    let mut products = ArrayVec::new();
    for server in 0..net.servers().len() {
        match gated(net, trace, server as u32) {
            Some(product) => products.push(product),
            None => return None,
        }
    }
    Some(products)
}

/// The horizon. None only where a number on the way, with the work of all gates in one exact sum, does not fit, which
/// shows that the simulation gauge is 2^120 or more.
pub(crate) fn horizon(net: &Network, trace: &Trace) -> Option<Frac>
    requires { IsTraceOf net.now trace.now }
    ensures value { IfSome result (λ t. t ≡ horizon (setup_of net.now trace.now)) }
    ensures fits { (d : ℕ) (e : ℚ) → HorizonFits (setup_of net.now trace.now) d e → IsSome result }
{
    let plain = plain_horizon(net, trace)?;
    let products = all_gated(net, trace)?;
    let gated = sum_of_products(&products)?;
    plus(plain, gated)
}
