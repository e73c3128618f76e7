//! Scripts from their text.

ghost use Rattle.std.specs.Prelude.{◌≡◌, ◌≢◌, ◌≤◌, ◌<◌, ◌⊎◌, ◌+◌, ℕ, length, take, drop, map, IfOk, IfErr, OnOk, All, slice_index, EachIndex, [], ◌∷◌, ◌++◌};
ghost use Rattle.input_texts.specs.curve_script.Views.{statement_view};
ghost use Rattle.input_texts.specs.declared.curve_script.fault.LangKind.TheVariants.{NoMemory};
ghost use Rattle.input_texts.specs.curve_script.Scripts.{IsScript, IsFirstFault, out_of_memory, line_view, Adds, Refuses};

use crate::curve_script::fault::{LangFault, LangKind};
use crate::curve_script::line::{is_skipped, line_statement};
use crate::curve_script::script::{Script, ScriptLine, Stat};
use std::alloc::{AllocError, Global};
use std::mem::drop;

// How many bytes stand before the first newline, or all.
fn line_len(text: &[u8]) -> usize
    ensures within { result ≤ length text.now }
    ensures none { (k : ℕ) → k < result → slice_index text.now k ≢ 10 }
    ensures ends { result < length text.now → slice_index text.now result ≡ 10 }
{
    for (i, byte) in text.iter().enumerate() {
        if *byte == b'\n' {
            return i;
        }
    }
    text.len()
}

fn fault_at(kind: LangKind, number: u32) -> LangFault
    ensures memory { kind ≡ NoMemory → result ≡ out_of_memory }
    ensures other { kind ≢ NoMemory → (result.kind ≡ kind) × (result.line ≡ number) }
{
    match kind {
        LangKind::NoMemory => LangFault { kind, line: 0 },
        _ => LangFault { kind, line: number },
    }
}

fn keep_line(lines: &mut Vec<ScriptLine>, number: u32, stat: Stat) -> Result<(), AllocError>
    ensures { OnOk result (map line_view lines.new.items
        ≡ map line_view lines.old.items ++ (number, statement_view stat) ∷ []) }
{
    lines.push(ScriptLine { number, stat })?;
    Ok(())
}

// Adds the statement of a line.
fn take_line(
    alloc: Global,
    lines: &mut Vec<ScriptLine>,
    line: &[u8],
    number: u32,
) -> Result<(), LangFault>
    ensures ok { OnOk result (Adds number line.now (map line_view lines.old.items) (map line_view lines.new.items)) }
    ensures fault { IfErr result (λ e. (e ≡ out_of_memory) ⊎ Refuses number (length lines.old.items) line.now e) }
{
    if is_skipped(line) {
        return Ok(());
    }
    let stat = match line_statement(alloc, line) {
        Ok(stat) => stat,
        Err(kind) => return Err(fault_at(kind, number)),
    };
    if lines.len() >= 256 {
        drop(stat);
        return Err(LangFault {
            kind: LangKind::C4,
            line: number,
        });
    }
    match keep_line(lines, number, stat) {
        Ok(()) => Ok(()),
        Err(_) => Err(LangFault {
            kind: LangKind::NoMemory,
            line: 0,
        }),
    }
}

/// The script that a text is: its statements, each with the number of its line; lines that are blank or begin with
/// `#` are skipped. Refused by its first line with a fault, and by the least of C1 to C4 in that line; else only for
/// want of memory, with line 0. Parentheses may nest at most 64 deep, and so do the calls. (The language is own
/// choice.)
pub fn parse_script(alloc: Global, text: &[u8]) -> Result<Script, LangFault>
    requires { length text.now ≤ 1048576 }
    ensures ok { IfOk result (λ script. IsScript text.now (map line_view script.lines.items)) }
    ensures fault { IfErr result (λ e. (e ≡ out_of_memory) ⊎ IsFirstFault text.now e.kind e.line) }
{
    let mut lines = Vec::new(alloc);
    let mut start = 0;
    let mut number = 0;
    while start <= text.len() {
        let end = start + line_len(&text[start..]);
        number += 1;
        match take_line(alloc, &mut lines, &text[start..end], number) {
            Ok(()) => {}
            Err(fault) => return Err(fault),
        }
        start = end + 1;
    }
    Ok(Script { lines })
}
