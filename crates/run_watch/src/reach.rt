//! How long the windows need be that the look at a stretch's own turns has.

ghost use Rattle.std.specs.Prelude.{◌≡◌, IfOk, IfSome};
ghost use Rattle.flow_watch.specs.watch_laws.Reaches.{HasReach};
ghost use Rattle.run_watch.specs.Reaches.{is_beyond, within_reach};

use flow_watch::watch_laws::Segment;
use fraction128::{Frac, is_less};
use rational::Extended;
use std::alloc::{AllocError, Global};
use upp_curve::{Curve, Tail};

/// A length that no window need pass: the rank and the period of a curve that repeats, if in its first period it rises at
/// least as much as in later ones. It is not told where a step to it is too wide.
pub(crate) fn reach_of(curve: &Curve) -> Option<Frac>
    ensures { IfSome result (HasReach curve.now) }
{
    let Tail::Periodic { rank, period, rise } = *curve.tail() else {
        return None;
    };
    let Ok(reach) = Frac::add(rank, period) else {
        return None;
    };
    let Ok(Extended::Fin(value)) = curve.value_at(period) else {
        return None;
    };
    if is_less(value, rise) {
        return None;
    }
    Some(reach)
}

/// Whether a length is beyond the reach; where there is none it never is.
fn is_beyond(reach: &Option<Frac>, length: Frac) -> bool
    ensures { result ≡ is_beyond reach.now length }
{
    match reach {
        None => false,
        Some(reach) => is_less(*reach, length),
    }
}

/// Those of some segments that do not start beyond it.
pub(crate) fn within_reach(
    alloc: Global,
    segments: &[Segment],
    reach: &Option<Frac>,
) -> Result<Vec<Segment>, AllocError>
    ensures { IfOk result (λ v. v.items ≡ within_reach reach.now segments.now) }
{
    let mut found = Vec::new(alloc);
    for g in segments {
        if !is_beyond(reach, g.start) {
            found.push(*g)?;
        }
    }
    Ok(found)
}
