//! Expressions made of tokens, where parentheses nest no deeper than a limit.

ghost use Rattle.std.specs.Prelude.{◌≡◌, IfOk, option_map};
ghost use Rattle.std.specs.String.{string_bytes};
ghost use Rattle.input_texts.specs.curve_script.Views.{expression_view};
ghost use Rattle.input_texts.specs.curve_script.Building.{IsTaken, pair_from, triple_from, one_from, number_from, curve_behind, two_from, inside_from, call_from, name_if, is_zero, build};
ghost use Rattle.input_texts.specs.curve_script.Grammar.{Named, OnCurve, OnNumber, OnTwo};
ghost use Rattle.input_texts.specs.curve_script.Shapes.{is_name_text};

use crate::curve_script::keyword::{
    CurveOperator, Keyword, NumberOperator, NumberPair, NumberTriple, PairOperator, keyword_of,
};
use crate::curve_script::script::Expr;
use crate::curve_script::shape::is_name_text;
use crate::curve_script::token::Sign;
use crate::curve_script::tokens::Tokens;
use fraction128::Frac;
use std::alloc::{AllocError, Global};

/// The name that a word is.
pub(crate) fn name_of(alloc: Global, word: &[u8]) -> Result<Option<String>, AllocError>
    ensures { IfOk result (λ made. option_map string_bytes made ≡ name_if (is_name_text word.now) word.now) }
{
    if !is_name_text(word) {
        return Ok(None);
    }
    match str::from_utf8(word) {
        Ok(text) => Ok(Some(String::from_str(alloc, text)?)),
        Err(_) => Ok(None),
    }
}

// A name, if the word is one.
fn named(alloc: Global, word: &[u8]) -> Result<Option<Expr>, AllocError>
    ensures { IfOk result (λ made. option_map expression_view made
        ≡ option_map (λ w. Named w) (name_if (is_name_text word.now) word.now)) }
{
    let Some(name) = name_of(alloc, word)? else {
        return Ok(None);
    };
    Ok(Some(Expr::Name(name)))
}

fn on_curve(alloc: Global, operator: CurveOperator, e: Expr) -> Result<Expr, AllocError>
    ensures { IfOk result (λ made. expression_view made ≡ OnCurve operator (expression_view e)) }
{
    Ok(Expr::OnCurve(operator, Box::new(alloc, e)?))
}

fn on_number(alloc: Global, operator: NumberOperator, e: Expr, x: Frac) -> Result<Expr, AllocError>
    ensures { IfOk result (λ made. expression_view made ≡ OnNumber operator (expression_view e) x) }
{
    Ok(Expr::OnNumber(operator, Box::new(alloc, e)?, x))
}

fn on_two(alloc: Global, operator: PairOperator, a: Expr, b: Expr) -> Result<Expr, AllocError>
    ensures { IfOk result (λ made. expression_view made ≡ OnTwo operator (expression_view a) (expression_view b)) }
{
    Ok(Expr::OnTwo(operator, Box::new(alloc, a)?, Box::new(alloc, b)?))
}

fn pair_at(kind: NumberPair, tokens: &mut Tokens<'_, '_>) -> Option<Expr>
    ensures { IsTaken expression_view tokens.new (pair_from kind tokens.old) result }
{
    let Some(x) = tokens.number() else {
        return None;
    };
    let Some(y) = tokens.number_behind(Sign::Comma) else {
        return None;
    };
    Some(Expr::OfPair(kind, x, y))
}

fn triple_at(kind: NumberTriple, tokens: &mut Tokens<'_, '_>) -> Option<Expr>
    ensures { IsTaken expression_view tokens.new (triple_from kind tokens.old) result }
{
    let Some(x) = tokens.number() else {
        return None;
    };
    let Some(y) = tokens.number_behind(Sign::Comma) else {
        return None;
    };
    let Some(z) = tokens.number_behind(Sign::Comma) else {
        return None;
    };
    Some(Expr::OfTriple(kind, x, y, z))
}

fn is_zero(keyword: Keyword) -> bool
    ensures { result ≡ is_zero keyword }
{
    match keyword {
        Keyword::Zero => true,
        _ => false,
    }
}

/// Takes an expression whose parentheses nest at most so deep.
#[cycle(curve)]
pub(crate) fn curve_at(
    alloc: Global,
    tokens: &mut Tokens<'_, '_>,
    deep: u32,
) -> Result<Option<Expr>, AllocError>
    ensures { IfOk result (IsTaken expression_view tokens.new (build deep tokens.old)) }
{
    let Some(word) = tokens.word() else {
        return Ok(None);
    };
    match keyword_of(word) {
        None => named(alloc, word),
        Some(keyword) => {
            if is_zero(keyword) {
                return Ok(Some(Expr::Zero));
            }
            if deep == 0 {
                return Ok(None);
            }
            call_at(alloc, keyword, tokens, deep - 1)
        }
    }
}

// Takes what stands behind a keyword, with its parentheses.
#[cycle(curve)]
fn call_at(
    alloc: Global,
    keyword: Keyword,
    tokens: &mut Tokens<'_, '_>,
    deep: u32,
) -> Result<Option<Expr>, AllocError>
    ensures { IfOk result (IsTaken expression_view tokens.new (call_from (build deep) keyword tokens.old)) }
{
    if !tokens.takes_sign(Sign::Open) {
        return Ok(None);
    }
    let Some(e) = inside_at(alloc, keyword, tokens, deep)? else {
        return Ok(None);
    };
    if !tokens.takes_sign(Sign::Close) {
        return Ok(None);
    }
    Ok(Some(e))
}

#[cycle(curve)]
fn inside_at(
    alloc: Global,
    keyword: Keyword,
    tokens: &mut Tokens<'_, '_>,
    deep: u32,
) -> Result<Option<Expr>, AllocError>
    ensures { IfOk result (IsTaken expression_view tokens.new (inside_from (build deep) keyword tokens.old)) }
{
    match keyword {
        Keyword::TwoNumbers(kind) => Ok(pair_at(kind, tokens)),
        Keyword::ThreeNumbers(kind) => Ok(triple_at(kind, tokens)),
        Keyword::OneCurve(operator) => one_at(alloc, operator, tokens, deep),
        Keyword::CurveAndNumber(operator) => with_number_at(alloc, operator, tokens, deep),
        Keyword::TwoCurves(operator) => two_at(alloc, operator, tokens, deep),
        Keyword::Let
        | Keyword::At
        | Keyword::Value
        | Keyword::AskOne(_)
        | Keyword::AskTwo(_)
        | Keyword::Zero => Ok(None),
    }
}

#[cycle(curve)]
fn one_at(
    alloc: Global,
    operator: CurveOperator,
    tokens: &mut Tokens<'_, '_>,
    deep: u32,
) -> Result<Option<Expr>, AllocError>
    ensures { IfOk result (IsTaken expression_view tokens.new (one_from (build deep) operator tokens.old)) }
{
    let Some(e) = curve_at(alloc, tokens, deep)? else {
        return Ok(None);
    };
    let made = on_curve(alloc, operator, e)?;
    Ok(Some(made))
}

#[cycle(curve)]
fn with_number_at(
    alloc: Global,
    operator: NumberOperator,
    tokens: &mut Tokens<'_, '_>,
    deep: u32,
) -> Result<Option<Expr>, AllocError>
    ensures { IfOk result (IsTaken expression_view tokens.new (number_from (build deep) operator tokens.old)) }
{
    let Some(e) = curve_at(alloc, tokens, deep)? else {
        return Ok(None);
    };
    let Some(x) = tokens.number_behind(Sign::Comma) else {
        return Ok(None);
    };
    let made = on_number(alloc, operator, e, x)?;
    Ok(Some(made))
}

/// Takes a comma, and an expression whose parentheses nest at most so deep.
#[cycle(curve)]
pub(crate) fn curve_behind(
    alloc: Global,
    tokens: &mut Tokens<'_, '_>,
    deep: u32,
) -> Result<Option<Expr>, AllocError>
    ensures { IfOk result (IsTaken expression_view tokens.new (curve_behind (build deep) tokens.old)) }
{
    if !tokens.takes_sign(Sign::Comma) {
        return Ok(None);
    }
    curve_at(alloc, tokens, deep)
}

#[cycle(curve)]
fn two_at(
    alloc: Global,
    operator: PairOperator,
    tokens: &mut Tokens<'_, '_>,
    deep: u32,
) -> Result<Option<Expr>, AllocError>
    ensures { IfOk result (IsTaken expression_view tokens.new (two_from (build deep) operator tokens.old)) }
{
    let Some(a) = curve_at(alloc, tokens, deep)? else {
        return Ok(None);
    };
    let Some(b) = curve_behind(alloc, tokens, deep)? else {
        return Ok(None);
    };
    let made = on_two(alloc, operator, a, b)?;
    Ok(Some(made))
}
