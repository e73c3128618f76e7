//! Whether the tokens of a line are a statement. No call nests, however deep its parentheses do.

ghost use Rattle.std.specs.Prelude.{◌≡◌, ◌++◌, ◌&&◌, map, reverse, IfOk, OnOk, is_some, option_map, true, length, ◌≤◌};
ghost use Rattle.std.specs.List.{list_all};
ghost use Rattle.input_texts.specs.curve_script.Grammar.{is_name_byte};
ghost use Rattle.input_texts.specs.curve_script.Keywords.{keyword_of};
ghost use Rattle.input_texts.specs.curve_script.Lexing.{view};
ghost use Rattle.input_texts.specs.curve_script.Tokens.{Word, Mark};
ghost use Rattle.input_texts.specs.curve_script.Shapes.{is_name_text, begins_with_letter, behind_curve, behind_statement, statement_word, curve_word, name_word, is_at, same_sign, after, is_number_there, run};

use crate::curve_script::keyword::{Keyword, keyword_of};
use crate::curve_script::token::{Sign, Token, is_digit, is_letter};
use fraction128::Frac;
use std::alloc::{AllocError, Global};

/// What may be to come in a line.
#[derive(Clone, Copy)]
pub(crate) enum Symbol {
    Statement,
    Curve,
    Number,
    Name,
    At,
    Sign(Sign),
}

#[tactic(auto, unfolding(crate::specs::curve_script::Grammar::is_name_byte))]
fn is_name_byte(byte: u8) -> bool
    ensures { result ≡ is_name_byte byte }
{
    is_letter(byte) || is_digit(byte) || byte == 95 || byte == 45
}

fn begins_with_letter(word: &[u8]) -> bool
    ensures { result ≡ begins_with_letter word.now }
{
    match word {
        [] => false,
        [first, ..] => is_letter(*first),
    }
}

fn has_name_bytes(word: &[u8]) -> bool
    ensures { result ≡ list_all is_name_byte word.now }
{
    word.iter().all(|b| is_name_byte(*b))
}

/// Whether a word that is no keyword is a name.
pub(crate) fn is_name_text(word: &[u8]) -> bool
    ensures { result ≡ is_name_text word.now }
{
    begins_with_letter(word) && word.len() <= 32 && has_name_bytes(word)
}

fn behind_curve(keyword: Keyword) -> Option<&'static [Symbol]>
    ensures { option_map (λ s. s.now) result ≡ behind_curve keyword }
{
    match keyword {
        Keyword::Zero => Some(&[]),
        Keyword::TwoNumbers(_) => Some(&[
            Symbol::Sign(Sign::Open),
            Symbol::Number,
            Symbol::Sign(Sign::Comma),
            Symbol::Number,
            Symbol::Sign(Sign::Close),
        ]),
        Keyword::ThreeNumbers(_) => Some(&[
            Symbol::Sign(Sign::Open),
            Symbol::Number,
            Symbol::Sign(Sign::Comma),
            Symbol::Number,
            Symbol::Sign(Sign::Comma),
            Symbol::Number,
            Symbol::Sign(Sign::Close),
        ]),
        Keyword::OneCurve(_) => Some(&[
            Symbol::Sign(Sign::Open),
            Symbol::Curve,
            Symbol::Sign(Sign::Close),
        ]),
        Keyword::CurveAndNumber(_) => Some(&[
            Symbol::Sign(Sign::Open),
            Symbol::Curve,
            Symbol::Sign(Sign::Comma),
            Symbol::Number,
            Symbol::Sign(Sign::Close),
        ]),
        Keyword::TwoCurves(_) => Some(&[
            Symbol::Sign(Sign::Open),
            Symbol::Curve,
            Symbol::Sign(Sign::Comma),
            Symbol::Curve,
            Symbol::Sign(Sign::Close),
        ]),
        Keyword::Let | Keyword::At | Keyword::Value | Keyword::AskOne(_) | Keyword::AskTwo(_) => {
            None
        }
    }
}

fn behind_statement(keyword: Keyword) -> Option<&'static [Symbol]>
    ensures { option_map (λ s. s.now) result ≡ behind_statement keyword }
{
    match keyword {
        Keyword::Let => Some(&[Symbol::Name, Symbol::Sign(Sign::Equals), Symbol::Curve]),
        Keyword::Value => Some(&[Symbol::Curve, Symbol::At, Symbol::Number]),
        Keyword::AskOne(_) => Some(&[Symbol::Curve]),
        Keyword::AskTwo(_) => Some(&[Symbol::Curve, Symbol::Sign(Sign::Comma), Symbol::Curve]),
        Keyword::At
        | Keyword::Zero
        | Keyword::TwoNumbers(_)
        | Keyword::ThreeNumbers(_)
        | Keyword::OneCurve(_)
        | Keyword::CurveAndNumber(_)
        | Keyword::TwoCurves(_) => None,
    }
}

fn statement_word(word: &[u8]) -> Option<&'static [Symbol]>
    ensures { option_map (λ s. s.now) result ≡ statement_word (keyword_of word.now) }
{
    match keyword_of(word) {
        Some(keyword) => behind_statement(keyword),
        None => None,
    }
}

fn curve_word(word: &[u8]) -> Option<&'static [Symbol]>
    ensures { option_map (λ s. s.now) result ≡ curve_word (keyword_of word.now) word.now }
{
    match keyword_of(word) {
        Some(keyword) => behind_curve(keyword),
        None => if is_name_text(word) { Some(&[]) } else { None },
    }
}

fn name_word(word: &[u8]) -> Option<&'static [Symbol]>
    ensures { option_map (λ s. s.now) result ≡ name_word (keyword_of word.now) word.now }
{
    match keyword_of(word) {
        Some(_) => None,
        None => if is_name_text(word) { Some(&[]) } else { None },
    }
}

pub(crate) fn is_at(word: &[u8]) -> bool
    ensures { result ≡ is_at (keyword_of word.now) }
{
    match keyword_of(word) {
        Some(Keyword::At) => true,
        _ => false,
    }
}

pub(crate) fn same_sign(a: Sign, b: Sign) -> bool
    ensures { result ≡ same_sign a b }
{
    match (a, b) {
        (Sign::Open, Sign::Open) => true,
        (Sign::Close, Sign::Close) => true,
        (Sign::Comma, Sign::Comma) => true,
        (Sign::Equals, Sign::Equals) => true,
        _ => false,
    }
}

fn after_word(symbol: Symbol, word: &[u8]) -> Option<&'static [Symbol]>
    ensures { option_map (λ s. s.now) result ≡ after symbol (Word word.now) }
{
    match symbol {
        Symbol::Statement => statement_word(word),
        Symbol::Curve => curve_word(word),
        Symbol::Number => Some(&[]),
        Symbol::Name => name_word(word),
        Symbol::At => if is_at(word) { Some(&[]) } else { None },
        Symbol::Sign(_) => None,
    }
}

fn after_mark(symbol: Symbol, mark: Sign) -> Option<&'static [Symbol]>
    ensures { option_map (λ s. s.now) result ≡ after symbol (Mark mark) }
{
    match symbol {
        Symbol::Sign(sign) => if same_sign(sign, mark) {
            Some(&[])
        } else {
            None
        },
        _ => None,
    }
}

fn after(symbol: Symbol, token: &Token<'_>) -> Option<&'static [Symbol]>
    ensures { option_map (λ s. s.now) result ≡ after symbol (view token.now) }
{
    match token {
        Token::Word(word) => after_word(symbol, word),
        Token::Mark(mark) => after_mark(symbol, *mark),
    }
}

#[tactic(auto, using(crate::proofs::curve_script::Runs::is_some_number), unfolding(crate::specs::curve_script::Grammar::number_in))]
fn writes_number(symbol: Symbol, token: &Token<'_>) -> bool
    ensures { result ≡ is_number_there symbol (view token.now) }
{
    match (symbol, token) {
        (Symbol::Number, Token::Word(word)) => Frac::parse(word).is_ok(),
        _ => true,
    }
}

// The stack's last symbol is the next to come.
fn push_all(stack: &mut Vec<Symbol>, symbols: &[Symbol]) -> Result<(), AllocError>
    ensures { OnOk result (reverse stack.new.items ≡ symbols.now ++ reverse stack.old.items) }
{
    let mut i = symbols.len();
    while i > 0 {
        i -= 1;
        stack.push(symbols[i])?;
    }
    Ok(())
}

/// Whether the tokens are of these symbols, and if so whether each word for a number writes one.
pub(crate) fn shape_of(
    alloc: Global,
    symbols: &[Symbol],
    tokens: &[Token<'_>],
) -> Result<Option<bool>, AllocError>
    ensures { IfOk result (λ shape. shape ≡ run symbols.now true (map view tokens.now)) }
{
    let mut stack = Vec::new(alloc);
    push_all(&mut stack, symbols)?;
    let mut numbers = true;
    for token in tokens {
        let Some(symbol) = stack.pop() else {
            return Ok(None);
        };
        numbers = numbers && writes_number(symbol, token);
        let Some(behind) = after(symbol, token) else {
            return Ok(None);
        };
        push_all(&mut stack, behind)?;
    }
    Ok(if stack.is_empty() {
        Some(numbers)
    } else {
        None
    })
}
