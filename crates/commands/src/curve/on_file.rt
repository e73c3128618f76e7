//! The answer on the file of a script.

ghost use Rattle.std.specs.Prelude.{◌≡◌, ◌≤◌, IfOk, length, map};
ghost use Rattle.curve_lang.specs.Views.{answer_view};
ghost use Rattle.input_texts.specs.curve_script.Scripts.{line_view};
ghost use Rattle.command_replies.specs.View.{reply_of, status_of};
ghost use Rattle.commands.specs.curve.OnScripts.{answered, IsScriptReply, IsReplyOnLines};
ghost use Rattle.commands.specs.curve.ScriptCounts.{CountsOn, CountsOnLines};

use command_replies::{Answer, Status, on_script_fault};
use curve_lang::{Answer as Told, Script, answer_text, eval_script, parse_script};
use outcomes::Steps;
use std::alloc::{AllocError, Global};
use std::sync::ledger::Ledger;

// The lines of the answers.
fn answered(alloc: Global, answers: &[Told]) -> Result<Answer, AllocError>
    ensures { IfOk result (λ r. reply_of r ≡ answered (map answer_view answers.now)) }
{
    let text = answer_text(alloc, answers)?;
    Ok(Answer {
        status: Status::Done,
        text,
    })
}

// The answer on the statements of a script. Refused only for want of memory.
fn on_lines<L: Ledger>(
    alloc: Global,
    file: &str,
    script: &Script,
    steps: &mut Steps<L>,
) -> Result<Answer, AllocError>
    ensures reply { IfOk result (λ r. IsReplyOnLines file.now (map line_view script.now.lines.items) (reply_of r)) }
    ensures counts { CountsOnLines (map line_view script.now.lines.items) (status_of result) steps.old steps.new }
{
    match eval_script(alloc, script, steps) {
        Ok(answers) => answered(alloc, &answers),
        Err(fault) => on_script_fault(alloc, file, fault),
    }
}

/// The answer on a file with this name and these bytes, in this order: the first line that is no statement, the first
/// statement with a fault or over a limit, and else the answers. Refused only for want of memory. The steps are those
/// that are counted as the statements find something.
pub fn answer_on<L: Ledger>(
    alloc: Global,
    file: &str,
    bytes: &[u8],
    steps: &mut Steps<L>,
) -> Result<Answer, AllocError>
    requires { length bytes.now ≤ 1048576 }
    ensures reply { IfOk result (λ r. IsScriptReply file.now bytes.now (reply_of r)) }
    ensures counts { CountsOn bytes.now (status_of result) steps.old steps.new }
{
    match parse_script(alloc, bytes) {
        Ok(script) => on_lines(alloc, file, &script, steps),
        Err(fault) => on_script_fault(alloc, file, fault),
    }
}
