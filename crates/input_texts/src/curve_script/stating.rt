//! Statements made of tokens, where parentheses nest no deeper than a limit.

ghost use Rattle.std.specs.Prelude.{◌≡◌, IfOk};
ghost use Rattle.input_texts.specs.curve_script.Views.{statement_view};
ghost use Rattle.input_texts.specs.curve_script.Building.{IsTaken, let_from, value_from, one_asked_from, two_asked_from, statement_behind, statement_from};

use crate::curve_script::building::{curve_at, curve_behind, name_of};
use crate::curve_script::keyword::{Keyword, OneAsked, TwoAsked, keyword_of};
use crate::curve_script::script::Stat;
use crate::curve_script::token::Sign;
use crate::curve_script::tokens::Tokens;
use std::alloc::{AllocError, Global};

fn let_at(alloc: Global, tokens: &mut Tokens<'_, '_>, deep: u32) -> Result<Option<Stat>, AllocError>
    ensures { IfOk result (IsTaken statement_view tokens.new (let_from deep tokens.old)) }
{
    let Some(word) = tokens.word() else {
        return Ok(None);
    };
    let Some(name) = name_of(alloc, word)? else {
        return Ok(None);
    };
    if !tokens.takes_sign(Sign::Equals) {
        return Ok(None);
    }
    let Some(e) = curve_at(alloc, tokens, deep)? else {
        return Ok(None);
    };
    Ok(Some(Stat::Let(name, e)))
}

fn value_at(
    alloc: Global,
    tokens: &mut Tokens<'_, '_>,
    deep: u32,
) -> Result<Option<Stat>, AllocError>
    ensures { IfOk result (IsTaken statement_view tokens.new (value_from deep tokens.old)) }
{
    let Some(e) = curve_at(alloc, tokens, deep)? else {
        return Ok(None);
    };
    if !tokens.takes_at() {
        return Ok(None);
    }
    let Some(x) = tokens.number() else {
        return Ok(None);
    };
    Ok(Some(Stat::Value(e, x)))
}

fn one_asked_at(
    alloc: Global,
    question: OneAsked,
    tokens: &mut Tokens<'_, '_>,
    deep: u32,
) -> Result<Option<Stat>, AllocError>
    ensures { IfOk result (IsTaken statement_view tokens.new (one_asked_from deep question tokens.old)) }
{
    let Some(e) = curve_at(alloc, tokens, deep)? else {
        return Ok(None);
    };
    Ok(Some(Stat::AskOne(question, e)))
}

fn two_asked_at(
    alloc: Global,
    question: TwoAsked,
    tokens: &mut Tokens<'_, '_>,
    deep: u32,
) -> Result<Option<Stat>, AllocError>
    ensures { IfOk result (IsTaken statement_view tokens.new (two_asked_from deep question tokens.old)) }
{
    let Some(a) = curve_at(alloc, tokens, deep)? else {
        return Ok(None);
    };
    let Some(b) = curve_behind(alloc, tokens, deep)? else {
        return Ok(None);
    };
    Ok(Some(Stat::AskTwo(question, a, b)))
}

fn statement_behind(
    alloc: Global,
    keyword: Keyword,
    tokens: &mut Tokens<'_, '_>,
    deep: u32,
) -> Result<Option<Stat>, AllocError>
    ensures { IfOk result (IsTaken statement_view tokens.new (statement_behind deep keyword tokens.old)) }
{
    match keyword {
        Keyword::Let => let_at(alloc, tokens, deep),
        Keyword::Value => value_at(alloc, tokens, deep),
        Keyword::AskOne(question) => one_asked_at(alloc, question, tokens, deep),
        Keyword::AskTwo(question) => two_asked_at(alloc, question, tokens, deep),
        Keyword::At
        | Keyword::Zero
        | Keyword::TwoNumbers(_)
        | Keyword::ThreeNumbers(_)
        | Keyword::OneCurve(_)
        | Keyword::CurveAndNumber(_)
        | Keyword::TwoCurves(_) => Ok(None),
    }
}

/// Takes a statement whose parentheses nest at most so deep.
pub(crate) fn statement_at(
    alloc: Global,
    tokens: &mut Tokens<'_, '_>,
    deep: u32,
) -> Result<Option<Stat>, AllocError>
    ensures { IfOk result (IsTaken statement_view tokens.new (statement_from deep tokens.old)) }
{
    let Some(word) = tokens.word() else {
        return Ok(None);
    };
    let Some(keyword) = keyword_of(word) else {
        return Ok(None);
    };
    statement_behind(alloc, keyword, tokens, deep)
}
