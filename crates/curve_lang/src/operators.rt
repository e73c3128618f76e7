//! Operators on curves, each with its conditions.

ghost use Rattle.std.specs.Prelude.{◌≡◌, ◌+◌, IsTrue, IfOk, ◌↔◌};
ghost use Rattle.rational.specs.Rational.{ℚ, ◌≤ℚ◌};
ghost use Rattle.min_plus.specs.Functions.{zero_q, IsFinite, IsNonnegative};
ghost use Rattle.upp_curve.specs.Curve.{value_at};
ghost use Rattle.upp_limits.specs.Outcome.{KeepsLimits};
ghost use Rattle.curve_call.specs.Answers.{IsAnswer};
ghost use Rattle.rational.specs.Extended.{◌<ₑ◌};
ghost use Rattle.rational.specs.declared.Extended.TheVariants.{Fin};
ghost use Rattle.curve_lang.specs.Finding.{MayCall, MayCallWith, Once, OneFinds, TestFinds, zero_curve};
ghost use Rattle.curve_lang.specs.Found.{TestedBy, OneMade, NumberMade, TwoMade};
ghost use Rattle.curve_lang.specs.Meaning.{call_of_two, call_with};
ghost use Rattle.curve_lang.specs.Views.{found};

use crate::kinds::zero_found;
use crate::sharing::{kept_call, told_call};
use curve_call::intact;
use curve_conv::convolve;
use curve_deconv::deconvolve;
use curve_deviation::vertical;
use fraction128::{Ext, Frac, is_less};
use input_texts::curve_script::{CurveOperator, LangKind, NumberOperator, PairOperator};
use outcomes::Steps;
use plain_operators::pointwise::{max, min, pos_diff, pos_minus, scale, shift, sum};
use plain_operators::running::{run_inf, run_sup};
use rational::Extended;
use std::alloc::Global;
use std::rc::Rc;
use std::sync::ledger::Ledger;
use subadd_closure::close;
use upp_curve::Curve;
use upp_limits::OpFault;

// Whether an operator may be called on two curves.
fn may_call(operator: PairOperator, f: &Curve, g: &Curve) -> bool
    ensures { IsTrue result ↔ MayCall operator f.now g.now }
{
    match operator {
        PairOperator::Sum | PairOperator::Min | PairOperator::Max | PairOperator::Conv => true,
        PairOperator::PosDiff => f.is_finite(),
        PairOperator::Deconv => g.is_finite(),
    }
}

// The answer of an operator on two curves that it may be called on.
fn called<L: Ledger>(
    alloc: Global,
    operator: PairOperator,
    f: &Curve,
    g: &Curve,
    steps: &mut Steps<L>,
) -> Result<Curve, OpFault>
    requires { MayCall operator f.now g.now }
    ensures count { steps.new ≡ steps.old + 1 }
    ensures value { IfOk result (λ c. (t : ℚ) → zero_q ≤ℚ t
        → IsAnswer (call_of_two operator) (value_at f.now) (value_at g.now) t (value_at c t)) }
    ensures limits { KeepsLimits (call_of_two operator) f.now g.now result }
{
    match operator {
        PairOperator::Sum => sum(alloc, f, g, steps),
        PairOperator::Min => min(alloc, f, g, steps),
        PairOperator::Max => max(alloc, f, g, steps),
        PairOperator::Conv => convolve(alloc, f, g, steps),
        PairOperator::PosDiff => pos_diff(alloc, f, g, steps),
        PairOperator::Deconv => deconvolve(alloc, f, g, steps),
    }
}

/// An operator on two curves.
pub(crate) fn two_made<L: Ledger>(
    alloc: Global,
    operator: PairOperator,
    f: &Curve,
    g: &Curve,
    steps: &mut Steps<L>,
) -> Result<Rc<Curve>, LangKind>
    ensures { TwoMade operator f.now g.now (found result) steps.old steps.new }
{
    if !may_call(operator, f, g) {
        return Err(LangKind::C8);
    }
    kept_call(alloc, intact(called(alloc, operator, f, g, steps)))
}

// Whether a number is from 0 on.
fn is_from_zero(x: Frac) -> bool
    ensures { IsTrue result ↔ (zero_q ≤ℚ x) }
{
    !is_less(x, Frac::zero())
}

// Whether a curve is finite, and a number from 0 on.
fn are_within(f: &Curve, x: Frac) -> bool
    ensures { IsTrue result ↔ (IsFinite (value_at f.now) × (zero_q ≤ℚ x)) }
{
    f.is_finite() && is_from_zero(x)
}

// Whether an operator may be called on a curve and a number.
fn may_call_with(operator: NumberOperator, f: &Curve, x: Frac) -> bool
    ensures { IsTrue result ↔ MayCallWith operator f.now x }
{
    match operator {
        NumberOperator::PosMinus => are_within(f, x),
        NumberOperator::Scale => are_within(f, x),
        NumberOperator::Shift => is_from_zero(x),
    }
}

// The answer of an operator on a curve and a number that it may be called on.
fn called_with<L: Ledger>(
    alloc: Global,
    operator: NumberOperator,
    f: &Curve,
    x: Frac,
    steps: &mut Steps<L>,
) -> Result<Curve, OpFault>
    requires { MayCallWith operator f.now x }
    ensures count { steps.new ≡ steps.old + 1 }
    ensures value { IfOk result (λ c. (t : ℚ) → zero_q ≤ℚ t
        → IsAnswer (call_with operator x) (value_at f.now) (value_at f.now) t (value_at c t)) }
    ensures limits { KeepsLimits (call_with operator x) f.now f.now result }
{
    match operator {
        NumberOperator::PosMinus => pos_minus(alloc, f, x, steps),
        NumberOperator::Scale => scale(alloc, f, x, steps),
        NumberOperator::Shift => shift(alloc, f, Extended::Fin(x), steps),
    }
}

/// An operator on a curve and a number.
pub(crate) fn number_made<L: Ledger>(
    alloc: Global,
    operator: NumberOperator,
    f: &Curve,
    x: Frac,
    steps: &mut Steps<L>,
) -> Result<Rc<Curve>, LangKind>
    ensures { NumberMade operator f.now x (found result) steps.old steps.new }
{
    if !may_call_with(operator, f, x) {
        return Err(LangKind::C8);
    }
    kept_call(alloc, intact(called_with(alloc, operator, f, x, steps)))
}

// An operator on one curve whose conditions hold.
fn one_of<L: Ledger>(
    alloc: Global,
    operator: CurveOperator,
    f: &Curve,
    steps: &mut Steps<L>,
) -> Result<Rc<Curve>, LangKind>
    requires finite { IsFinite (value_at f.now) }
    requires nonneg { IsNonnegative (value_at f.now) }
    ensures { OneFinds operator f.now (found result) steps.old steps.new }
{
    match operator {
        CurveOperator::Close => kept_call(alloc, intact(close(alloc, f, steps))),
        CurveOperator::RunSup => kept_call(alloc, intact(run_sup(alloc, f, steps))),
        CurveOperator::RunInf => kept_call(alloc, intact(run_inf(alloc, f, steps))),
    }
}

// How far the zero curve is above a curve.
fn tested<L: Ledger>(zero: &Curve, f: &Curve, steps: &mut Steps<L>) -> Result<Ext, LangKind>
    requires { IsFinite (value_at f.now) }
    ensures { Once (TestFinds zero.now f.now) result steps.old steps.new }
{
    match vertical(zero, f, steps) {
        Ok(above) => Ok(above),
        Err(fault) => Err(told_call(fault)),
    }
}

fn is_above_zero(x: Ext) -> bool
    ensures { IsTrue result ↔ (Fin zero_q <ₑ x) }
{
    match x {
        Extended::Inf => true,
        Extended::Fin(number) => is_less(Frac::zero(), number),
    }
}

// An operator on a finite curve, once it is known to be nowhere below the zero curve.
fn one_tested<L: Ledger>(
    alloc: Global,
    operator: CurveOperator,
    zero: &Curve,
    f: &Curve,
    steps: &mut Steps<L>,
) -> Result<Rc<Curve>, LangKind>
    requires finite { IsFinite (value_at f.now) }
    requires zero { zero.now ≡ zero_curve }
    ensures { TestedBy zero.now f.now (OneFinds operator f.now) (found result) steps.old steps.new }
{
    match tested(zero, f, steps) {
        Ok(above) => {
            if is_above_zero(above) {
                return Err(LangKind::C8);
            }
            one_of(alloc, operator, f, steps)
        }
        Err(kind) => Err(kind),
    }
}

/// An operator on one curve, which has to be finite and nowhere below 0.
pub(crate) fn one_made<L: Ledger>(
    alloc: Global,
    operator: CurveOperator,
    f: &Curve,
    steps: &mut Steps<L>,
) -> Result<Rc<Curve>, LangKind>
    ensures { OneMade operator f.now (found result) steps.old steps.new }
{
    if !f.is_finite() {
        return Err(LangKind::C8);
    }
    match zero_found(alloc) {
        Ok(zero) => one_tested(alloc, operator, &zero, f, steps),
        Err(kind) => Err(kind),
    }
}
