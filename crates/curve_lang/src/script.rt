//! The answers of a script, statement by statement.

ghost use Rattle.std.specs.Prelude.{◌≡◌, map, [], IfOk};
ghost use Rattle.input_texts.specs.curve_script.Views.{expression_view, statement_view};
ghost use Rattle.input_texts.specs.curve_script.Scripts.{line_view};
ghost use Rattle.curve_lang.specs.After.{AskedAfter};
ghost use Rattle.curve_lang.specs.Answers.{ScriptMeans};
ghost use Rattle.curve_lang.specs.Found.{ScriptFinds, AsksTime, AsksOf, AsksBoth, fault_at};
ghost use Rattle.curve_lang.specs.Scripts.{IsGiven, IsKept, IsAdded};
ghost use Rattle.curve_lang.specs.Views.{let_view, answer_view, found, told, told_script};

use crate::answer::Answer;
use crate::expressions::curve_of;
use crate::naming::{Named, give_name, is_given};
use crate::questions::{one_told, two_told, value_told};
use fraction128::Frac;
use input_texts::curve_script::{Expr, LangFault, LangKind, OneAsked, Script, Stat, TwoAsked};
use outcomes::Steps;
use std::alloc::Global;
use std::rc::Rc;
use std::sync::ledger::Ledger;
use upp_curve::Curve;

// Gives a new name to the curve of an expression.
fn give<L: Ledger>(
    alloc: Global,
    lets: &mut Vec<Named>,
    word: &str,
    e: &Expr,
    steps: &mut Steps<L>,
) -> Result<(), LangKind>
    ensures { IsGiven (map let_view lets.old.items) word.now (expression_view e.now)
        (map let_view lets.new.items) result steps.old steps.new }
{
    if is_given(lets, word) {
        return Err(LangKind::C5);
    }
    match curve_of(alloc, lets, e, steps) {
        Ok(curve) => match give_name(alloc, lets, word, curve) {
            Ok(()) => Ok(()),
            Err(_) => Err(LangKind::NoMemory),
        },
        Err(kind) => Err(kind),
    }
}

// The answer of a question about the value at a time.
fn time_asked<L: Ledger>(
    alloc: Global,
    lets: &[Named],
    e: &Expr,
    t: Frac,
    steps: &mut Steps<L>,
) -> Result<Answer, LangKind>
    ensures { AsksTime (map let_view lets.now) (expression_view e.now) t (told result) steps.old steps.new }
{
    match curve_of(alloc, lets, e, steps) {
        Ok(f) => value_told(&f, t),
        Err(kind) => Err(kind),
    }
}

// The answer of a question about one curve.
fn one_asked<L: Ledger>(
    alloc: Global,
    lets: &[Named],
    question: OneAsked,
    e: &Expr,
    steps: &mut Steps<L>,
) -> Result<Answer, LangKind>
    ensures { AsksOf (map let_view lets.now) question (expression_view e.now) (told result) steps.old steps.new }
{
    match curve_of(alloc, lets, e, steps) {
        Ok(f) => Ok(one_told(question, f)),
        Err(kind) => Err(kind),
    }
}

// The answer of a question about two curves, the first of which is there.
fn asked_after<L: Ledger>(
    alloc: Global,
    question: TwoAsked,
    f: &Curve,
    part: Result<Rc<Curve>, LangKind>,
    steps: &mut Steps<L>,
) -> Result<Answer, LangKind>
    ensures { AskedAfter question f.now (found part) (told result) steps.old steps.new }
{
    match part {
        Ok(g) => two_told(alloc, question, f, &g, steps),
        Err(kind) => Err(kind),
    }
}

// The answer of a question about two expressions.
fn two_asked<L: Ledger>(
    alloc: Global,
    lets: &[Named],
    question: TwoAsked,
    a: &Expr,
    b: &Expr,
    steps: &mut Steps<L>,
) -> Result<Answer, LangKind>
    ensures { AsksBoth (map let_view lets.now) question (expression_view a.now) (expression_view b.now) (told result)
        steps.old steps.new }
{
    match curve_of(alloc, lets, a, steps) {
        Ok(f) => {
            let part = curve_of(alloc, lets, b, steps);
            asked_after(alloc, question, &f, part, steps)
        }
        Err(kind) => Err(kind),
    }
}

// An answer after the others; a refusal stays.
fn keep(answers: &mut Vec<Answer>, made: Result<Answer, LangKind>) -> Result<(), LangKind>
    ensures { IsKept (told made) (map answer_view answers.old.items) (map answer_view answers.new.items) result }
{
    match made {
        Ok(answer) => match answers.push(answer) {
            Ok(()) => Ok(()),
            Err(_) => Err(LangKind::NoMemory),
        },
        Err(kind) => Err(kind),
    }
}

// Gives the name of a statement, or its answer.
fn add<L: Ledger>(
    alloc: Global,
    lets: &mut Vec<Named>,
    answers: &mut Vec<Answer>,
    statement: &Stat,
    steps: &mut Steps<L>,
) -> Result<(), LangKind>
    ensures { IsAdded (map let_view lets.old.items) (map answer_view answers.old.items) (statement_view statement.now)
        (map let_view lets.new.items) (map answer_view answers.new.items) result steps.old steps.new }
{
    match statement {
        Stat::Let(word, e) => give(alloc, lets, word.as_str(), e, steps),
        Stat::Value(e, t) => keep(answers, time_asked(alloc, lets, e, *t, steps)),
        Stat::AskOne(question, e) => keep(answers, one_asked(alloc, lets, *question, e, steps)),
        Stat::AskTwo(question, a, b) => {
            keep(answers, two_asked(alloc, lets, *question, a, b, steps))
        }
    }
}

// Want of memory has no line.
fn fault_at(kind: LangKind, line: u32) -> LangFault
    ensures { result ≡ fault_at kind line }
{
    match kind {
        LangKind::NoMemory => LangFault { kind, line: 0 },
        _ => LangFault { kind, line },
    }
}

/// The answers of a script: one for each statement but `let`, in order. Refused with the first fault, at its line:
/// a name that is given twice (C5) or was not given before (C6), a kind of curve that is refused (C7), a condition of
/// an operator that is not met or a time below 0 (C8), and a curve, an operator or a `value` that is over a limit.
/// The arguments of an operator are looked at before it, from left to right, and a `let` looks at its name first. The
/// line is 0 where memory ran out, and only there. Each operator on curves counts one step, and a closure one for each of
/// its fold: what was counted tells where memory ran out, so that each operator that is counted is within its limits.
pub fn eval_script<L: Ledger>(
    alloc: Global,
    script: &Script,
    steps: &mut Steps<L>,
) -> Result<Vec<Answer>, LangFault>
    ensures found { ScriptFinds [] [] (map line_view script.now.lines.items) (told_script result) steps.old steps.new }
    ensures meaning { IfOk result
        (λ v. ScriptMeans [] (map line_view script.now.lines.items) (map answer_view v.items)) }
{
    let mut lets = Vec::new(alloc);
    let mut answers = Vec::new(alloc);
    for line in &script.lines {
        if let Err(kind) = add(alloc, &mut lets, &mut answers, &line.stat, steps) {
            return Err(fault_at(kind, line.number));
        }
    }
    Ok(answers)
}
