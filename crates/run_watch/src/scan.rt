ghost use Rattle.std.specs.Prelude.{◌≡◌, ◌↔◌, ℕ, ◌<◌, ◌≤◌, List, ◌++◌, length, take, drop, Some, slice_get, IsTrue, IfOk, IfSome, MatchOption};
ghost use Rattle.rational.specs.Rational.{ℚ, int, ◌+ℚ◌, ◌≤ℚ◌};
ghost use Rattle.rational.specs.Ratio.{SumFits};
ghost use Rattle.flow_watch.specs.watch_laws.Marks.{Each, TimesRise, IsPast, IsOver, IsUnderSome, MostFits, FitsRule};
ghost use Rattle.run_watch.specs.Queue.{Scans, EndsAbove, StartsNear, IsNotFar, Lowered, Passed, FrontUnder};

use flow_watch::watch_laws::{Mark, Rule};
use fraction128::{Frac, is_less, sum};
use std::alloc::{AllocError, Global};
use std::collections::VecDeque;

/// Whether t is `most` after a, or later.
pub(crate) fn is_past(most: &Option<Frac>, a: Frac, t: Frac) -> bool
    requires { MostFits most.now a }
    ensures { IsTrue result ↔ IsPast most.now a t }
{
    match most {
        None => false,
        Some(most) => !is_less(t, sum(a, *most)),
    }
}

/// Takes out the last marks whose keys are at most k.
fn drop_lower(kept: &mut VecDeque<Mark>, k: Frac)
    ensures lower { Lowered k kept.old.items kept.new.items }
    ensures above { EndsAbove k kept.new.items }
{
    while !kept.is_empty() {
        let last = kept[kept.len() - 1];
        if is_less(k, last.start_key) {
            return;
        }
        let _ = kept.pop_back();
    }
}

/// Takes out the first marks that t is past.
fn drop_past(kept: &mut VecDeque<Mark>, most: &Option<Frac>, t: Frac)
    requires { Each (λ m. MostFits most.now m.time) kept.old.items }
    ensures past { Passed most.now t kept.old.items kept.new.items }
    ensures near { StartsNear most.now t kept.new.items }
{
    while !kept.is_empty() {
        let first = kept[0];
        if !is_past(most, first.time, t) {
            return;
        }
        let _ = kept.pop_front();
    }
}

/// Whether k is less than the first key and the gap.
fn is_front_under(kept: &VecDeque<Mark>, gap: Frac, k: Frac) -> bool
    requires { Each (λ m. SumFits m.start_key gap) kept.now.items }
    ensures { IsTrue result ↔ FrontUnder gap k kept.now.items }
{
    if kept.is_empty() {
        return false;
    }
    let first = kept[0];
    is_less(k, sum(first.start_key, gap))
}

/// Lets in the marks from `into` on that are far enough before b, and answers the number of the next.
fn let_in(
    kept: &mut VecDeque<Mark>,
    marks: &[Mark],
    rule: &Rule,
    b: &Mark,
    into: usize,
) -> Result<usize, AllocError>
    requires scans { Scans rule.now marks.now b.now into kept.old.items }
    requires in_range { into ≤ length marks.now }
    requires rise { TimesRise marks.now }
    requires fits { Each (FitsRule rule.now) marks.now }
    ensures in_range { IfOk result (λ n. n ≤ length marks.now) }
    ensures scans { IfOk result (λ n. Scans rule.now marks.now b.now n kept.new.items) }
    ensures rest { IfOk result (λ n. Each (IsNotFar rule.now b.now) (drop n marks.now)) }
{
    let mut next = into;
    while next < marks.len() {
        let q = marks[next];
        if is_less(b.time, sum(q.time, rule.least)) {
            return Ok(next);
        }
        drop_lower(kept, q.start_key);
        kept.push_back(q)?;
        next += 1;
    }
    Ok(next)
}

/// The first of some ends that is the later of a pair that the rule looks for, of which the earlier is one of the marks,
/// in one pass over both: each mark goes into the queue once and out of it once.
pub fn first_under(
    alloc: Global,
    marks: &[Mark],
    ends: &[Mark],
    rule: &Rule,
) -> Result<Option<usize>, AllocError>
    requires rise { TimesRise marks.now }
    requires ends { TimesRise ends.now }
    requires fits { Each (FitsRule rule.now) marks.now }
    ensures none { IfOk result
        (λ o. MatchOption o (Each (IsOver rule.now marks.now) ends.now) (λ k. k < length ends.now)) }
    ensures before { IfOk result (λ o. IfSome o (λ k. Each (IsOver rule.now marks.now) (take k ends.now))) }
    ensures there { IfOk result
        (λ o. IfSome o (λ k. (b : Mark) × (slice_get ends.now k ≡ Some b) × IsUnderSome rule.now marks.now b)) }
{
    let mut kept = VecDeque::new(alloc);
    let mut into = 0;
    for k in 0..ends.len() {
        let b = &ends[k];
        into = let_in(&mut kept, marks, rule, b, into)?;
        drop_past(&mut kept, &rule.most, b.time);
        if is_front_under(&kept, rule.gap, b.end_key) {
            return Ok(Some(k));
        }
    }
    Ok(None)
}
