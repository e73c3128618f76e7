//! The least of many values that fall, between two places of them: a tree in which each node is at most the nodes below it.

ghost use Rattle.std.specs.Prelude.{ℕ, ◌<◌, ◌≤◌, length};
ghost use Rattle.rational.specs.Rational.{ℚ, ◌≤ℚ◌};
ghost use Rattle.flow_watch.specs.step_lines.Lows.{Covers};

use fraction128::{Frac, lesser};

/// Lowers a leaf and all nodes above it to at most a value. Node 1 is the root; the nodes 2 n and 2 n + 1 stand below node n.
pub(crate) fn lower(nodes: &mut [Frac], leaf: usize, value: Frac)
    requires { leaf < length nodes.old }
    ensures covers { Covers nodes.new value leaf }
    ensures keeps { (k : ℕ) (v : ℚ) → Covers nodes.old v k → Covers nodes.new v k }
{
    let mut at = leaf;
    while at > 0 {
        let low = lesser(nodes[at], value);
        nodes[at] = low;
        at /= 2;
    }
}

/// The least of the nodes of one row from `low` up to, but without, `high`, and of `most`: in each row the outermost two, and the
/// rest by those above them.
pub(crate) fn least_between(nodes: &[Frac], low: usize, high: usize, most: Frac) -> Frac
    requires some { 0 < low }
    requires in_range { high ≤ length nodes.now }
    ensures { (k : ℕ) (v : ℚ) → low ≤ k → k < high → Covers nodes.now v k → result ≤ℚ v }
{
    let mut from = low;
    let mut upto = high;
    let mut least = most;
    while from < upto {
        let last = upto - 1;
        let pair = lesser(nodes[from], nodes[last]);
        least = lesser(least, pair);
        from = (from + 1) / 2;
        upto /= 2;
    }
    least
}
