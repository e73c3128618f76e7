//! The curve of an expression.

ghost use Rattle.std.specs.Prelude.{map};
ghost use Rattle.input_texts.specs.curve_script.Views.{expression_view};
ghost use Rattle.curve_lang.specs.Found.{Finds};
ghost use Rattle.curve_lang.specs.After.{OneAfter, NumberAfter, TwoAfter};
ghost use Rattle.curve_lang.specs.Views.{let_view, found};

use crate::kinds::{pair_found, triple_found, zero_found};
use crate::naming::{Named, named_curve};
use crate::operators::{number_made, one_made, two_made};
use fraction128::Frac;
use input_texts::curve_script::{CurveOperator, Expr, LangKind, NumberOperator, PairOperator};
use outcomes::Steps;
use std::alloc::Global;
use std::rc::Rc;
use std::sync::ledger::Ledger;
use upp_curve::Curve;

// An operator on the curve of a part; where the part has none, neither has the whole.
fn one_after<L: Ledger>(
    alloc: Global,
    operator: CurveOperator,
    part: Result<Rc<Curve>, LangKind>,
    steps: &mut Steps<L>,
) -> Result<Rc<Curve>, LangKind>
    ensures { OneAfter operator (found part) (found result) steps.old steps.new }
{
    match part {
        Ok(f) => one_made(alloc, operator, &f, steps),
        Err(kind) => Err(kind),
    }
}

// The same of an operator on a curve and a number.
fn number_after<L: Ledger>(
    alloc: Global,
    operator: NumberOperator,
    part: Result<Rc<Curve>, LangKind>,
    x: Frac,
    steps: &mut Steps<L>,
) -> Result<Rc<Curve>, LangKind>
    ensures { NumberAfter operator x (found part) (found result) steps.old steps.new }
{
    match part {
        Ok(f) => number_made(alloc, operator, &f, x, steps),
        Err(kind) => Err(kind),
    }
}

// And of an operator on two curves, the first of which is there.
fn two_after<L: Ledger>(
    alloc: Global,
    operator: PairOperator,
    f: &Curve,
    part: Result<Rc<Curve>, LangKind>,
    steps: &mut Steps<L>,
) -> Result<Rc<Curve>, LangKind>
    ensures { TwoAfter operator f.now (found part) (found result) steps.old steps.new }
{
    match part {
        Ok(g) => two_made(alloc, operator, f, &g, steps),
        Err(kind) => Err(kind),
    }
}

/// The curve of an expression, where these names were given. Calls nest as deep as its parentheses.
pub(crate) fn curve_of<L: Ledger>(
    alloc: Global,
    lets: &[Named],
    e: &Expr,
    steps: &mut Steps<L>,
) -> Result<Rc<Curve>, LangKind>
    ensures { Finds (map let_view lets.now) (expression_view e.now) (found result) steps.old steps.new }
{
    match e {
        Expr::Name(name) => named_curve(lets, name.as_str()),
        Expr::Zero => zero_found(alloc),
        Expr::OfPair(kind, x, y) => pair_found(alloc, *kind, *x, *y),
        Expr::OfTriple(kind, x, y, z) => triple_found(alloc, *kind, *x, *y, *z),
        Expr::OnCurve(operator, a) => {
            let part = curve_of(alloc, lets, a, steps);
            one_after(alloc, *operator, part, steps)
        }
        Expr::OnNumber(operator, a, x) => {
            let part = curve_of(alloc, lets, a, steps);
            number_after(alloc, *operator, part, *x, steps)
        }
        Expr::OnTwo(operator, a, b) => match curve_of(alloc, lets, a, steps) {
            Ok(f) => {
                let part = curve_of(alloc, lets, b, steps);
                two_after(alloc, *operator, &f, part, steps)
            }
            Err(kind) => Err(kind),
        },
    }
}
