//! Answers of one line.

ghost use Rattle.std.specs.Prelude.{◌≡◌, ◌++◌, codes, IfOk};
ghost use Rattle.command_replies.specs.Replies as replies;
ghost use Rattle.command_replies.specs.View.{code_of, reply_of};
ghost use Rattle.commands.specs.measure.OnMeasures as measures;
ghost use Rattle.upp_limits.specs.declared.own_limits.OverLimit.TheVariants as limits;

use command_replies::{Answer, Status};
use report_text::{push_after, push_text};
use std::alloc::{AllocError, Global};

// The answer with the line of a reason.
fn refused(alloc: Global, status: Status, words: &str, name: &str) -> Result<Answer, AllocError>
    ensures { IfOk result (λ r. reply_of r ≡ replies.refusal (code_of status) (words.now ++ name.now)) }
{
    let mut text = Vec::new(alloc);
    push_text(&mut text, "netcalc: ")?;
    push_after(&mut text, words, name)?;
    push_text(&mut text, "\n")?;
    Ok(Answer { status, text })
}

/// The answer where no live flow has the name.
pub(crate) fn unknown_flow(alloc: Global, name: &str) -> Result<Answer, AllocError>
    ensures { IfOk result (λ r. reply_of r ≡ measures.unknown_flow name.now) }
{
    refused(alloc, Status::Malformed, "unknown flow ", name)
}

/// The answer where packets, or the burst, are too many.
pub(crate) fn too_many(alloc: Global, what: &str) -> Result<Answer, AllocError>
    ensures { IfOk result (λ r. reply_of r ≡ replies.over limits.TooMany what.now) }
{
    refused(alloc, Status::TooMany, "too many: ", what)
}

/// The answer where packets, or the burst, are too wide.
pub(crate) fn too_wide(alloc: Global, what: &str) -> Result<Answer, AllocError>
    ensures { IfOk result (λ r. reply_of r ≡ replies.over limits.TooWide what.now) }
{
    refused(alloc, Status::TooWide, "too wide: ", what)
}
