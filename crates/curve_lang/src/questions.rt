//! Answers of questions about curves.

ghost use Rattle.std.specs.Prelude.{◌≡◌, ℕ, Ok};
ghost use Rattle.upp_limits.specs.declared.op_kind.OpKind.TheVariants as calls;
ghost use Rattle.input_texts.specs.declared.curve_script.keyword.TwoAsked.TheVariants as asked;
ghost use Rattle.curve_lang.specs.Answers.{one_answer};
ghost use Rattle.curve_lang.specs.Finding.{CallFinds, Guarded, MayWait, Once};
ghost use Rattle.curve_lang.specs.Found.{TwoFinds, TimeFinds, IsDelay};
ghost use Rattle.curve_lang.specs.Views.{answer_view, told};

use crate::answer::{Answer, Word};
use crate::sharing::told_call;
use crate::values::value_found;
use curve_deviation::{horizontal, is_below, vertical};
use fraction128::{Frac, is_less};
use input_texts::curve_script::{LangKind, OneAsked, TwoAsked};
use outcomes::Steps;
use plain_operators::pointwise::min;
use std::alloc::Global;
use std::rc::Rc;
use std::sync::ledger::Ledger;
use upp_curve::{Curve, equal};

/// The answer of a question about the value at a time.
pub(crate) fn value_told(f: &Curve, t: Frac) -> Result<Answer, LangKind>
    ensures { (n : ℕ) → TimeFinds f.now t (told result) n n }
{
    if is_less(t, Frac::zero()) {
        return Err(LangKind::C8);
    }
    match value_found(f, t) {
        Ok(value) => Ok(Answer::Number {
            word: Word::Value,
            value,
        }),
        Err(kind) => Err(kind),
    }
}

/// The answer of a question about one curve.
pub(crate) fn one_told(question: OneAsked, f: Rc<Curve>) -> Answer
    ensures { answer_view result ≡ one_answer question f.value }
{
    match question {
        OneAsked::Rate => Answer::Number {
            word: Word::Rate,
            value: f.rate().unwrap(),
        },
        OneAsked::Show => Answer::Shown(f),
    }
}

// The answer of a question about a delay whose conditions hold.
fn delay_found<L: Ledger>(f: &Curve, g: &Curve, steps: &mut Steps<L>) -> Result<Answer, LangKind>
    requires { MayWait f.now g.now }
    ensures { Once (CallFinds calls.Horizontal f.now g.now (IsDelay f.now g.now)) (told result) steps.old steps.new }
{
    match horizontal(f, g, steps) {
        Ok(value) => Ok(Answer::Number {
            word: Word::Delay,
            value,
        }),
        Err(fault) => Err(told_call(fault)),
    }
}

fn delay_told<L: Ledger>(f: &Curve, g: &Curve, steps: &mut Steps<L>) -> Result<Answer, LangKind>
    ensures { TwoFinds asked.Delay f.now g.now (told result) steps.old steps.new }
{
    if !g.is_finite() {
        return Err(LangKind::C8);
    }
    if !f.is_rising() {
        return Err(LangKind::C8);
    }
    if !g.is_rising() {
        return Err(LangKind::C8);
    }
    delay_found(f, g, steps)
}

fn backlog_told<L: Ledger>(f: &Curve, g: &Curve, steps: &mut Steps<L>) -> Result<Answer, LangKind>
    ensures { TwoFinds asked.Backlog f.now g.now (told result) steps.old steps.new }
{
    if !g.is_finite() {
        return Err(LangKind::C8);
    }
    match vertical(f, g, steps) {
        Ok(value) => Ok(Answer::Number {
            word: Word::Backlog,
            value,
        }),
        Err(fault) => Err(told_call(fault)),
    }
}

fn equal_told(f: &Curve, g: &Curve) -> Result<Answer, LangKind>
    ensures { (n : ℕ) → TwoFinds asked.Equal f.now g.now (told result) n n }
{
    Ok(Answer::Truth {
        word: Word::Equal,
        holds: equal(f, g),
    })
}

fn below_told<L: Ledger>(
    alloc: Global,
    f: &Curve,
    g: &Curve,
    steps: &mut Steps<L>,
) -> Result<Answer, LangKind>
    ensures { TwoFinds asked.Below f.now g.now (told result) steps.old steps.new }
{
    match min(alloc, f, g, steps) {
        Ok(lesser) => Ok(Answer::Truth {
            word: Word::Below,
            holds: is_below(f, &lesser),
        }),
        Err(fault) => Err(told_call(fault)),
    }
}

/// The answer of a question about two curves.
pub(crate) fn two_told<L: Ledger>(
    alloc: Global,
    question: TwoAsked,
    f: &Curve,
    g: &Curve,
    steps: &mut Steps<L>,
) -> Result<Answer, LangKind>
    ensures { TwoFinds question f.now g.now (told result) steps.old steps.new }
{
    match question {
        TwoAsked::Delay => delay_told(f, g, steps),
        TwoAsked::Backlog => backlog_told(f, g, steps),
        TwoAsked::Equal => equal_told(f, g),
        TwoAsked::Below => below_told(alloc, f, g, steps),
    }
}
