//! One line of a script.

ghost use Rattle.std.specs.Prelude.{◌≡◌, ◌⊎◌, ℕ, List, map, IfOk, IfErr};
ghost use Rattle.input_texts.specs.curve_script.Views.{statement_view};
ghost use Rattle.input_texts.specs.curve_script.Lexing.{view};
ghost use Rattle.input_texts.specs.curve_script.Lines.{is_blank, is_comment, is_skipped, HasTokens, HasFault, IsLine};
ghost use Rattle.input_texts.specs.declared.curve_script.fault.LangKind.TheVariants.{NoMemory};

use crate::curve_script::fault::LangKind;
use crate::curve_script::script::Stat;
use crate::curve_script::shape::{Symbol, shape_of};
use crate::curve_script::stating::statement_at;
use crate::curve_script::token::{Token, tokens_of};
use crate::curve_script::tokens::Tokens;
use crate::plain_text::is_plain;
use std::alloc::Global;

fn is_blank(line: &[u8]) -> bool
    ensures { result ≡ is_blank line.now }
{
    line.iter().all(|b| *b == b' ')
}

fn is_comment(line: &[u8]) -> bool
    ensures { result ≡ is_comment line.now }
{
    match line {
        [] => false,
        [first, ..] => *first == b'#',
    }
}

/// Whether a line is no statement, whatever its other bytes.
pub(crate) fn is_skipped(line: &[u8]) -> bool
    ensures { result ≡ is_skipped line.now }
{
    is_blank(line) || is_comment(line)
}

/// The statement that the tokens of a plain line spell, or the line's own first fault.
fn statement_of(alloc: Global, tokens: &[Token<'_>]) -> Result<Stat, LangKind>
    ensures ok { IfOk result (λ s. (line : List ℕ) → HasTokens line (map view tokens.now)
        → IsLine line (statement_view s)) }
    ensures fault { IfErr result (λ k. (k ≡ NoMemory)
        ⊎ ((line : List ℕ) → HasTokens line (map view tokens.now) → HasFault k line)) }
{
    let Some(numbers) = shape_of(alloc, &[Symbol::Statement], tokens)? else {
        return Err(LangKind::C2);
    };
    if !numbers {
        return Err(LangKind::C3);
    }
    let mut rest = Tokens::of(tokens);
    let Some(stat) = statement_at(alloc, &mut rest, 64)? else {
        return Err(LangKind::C4);
    };
    Ok(stat)
}

/// The statement that a line spells, or the line's own first fault.
pub(crate) fn line_statement(alloc: Global, line: &[u8]) -> Result<Stat, LangKind>
    ensures ok { IfOk result (λ s. IsLine line.now (statement_view s)) }
    ensures fault { IfErr result (λ k. (k ≡ NoMemory) ⊎ HasFault k line.now) }
{
    if !is_plain(line) {
        return Err(LangKind::C1);
    }
    let Some(tokens) = tokens_of(alloc, line)? else {
        return Err(LangKind::C2);
    };
    statement_of(alloc, &tokens)
}
