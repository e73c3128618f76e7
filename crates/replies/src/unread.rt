//! The answer where files of a call were not had.

ghost use Rattle.std.specs.Prelude.{◌≡◌, IfOk};
ghost use Rattle.replies.specs.Ended.{Tells};
ghost use Rattle.replies.specs.Replies as replies;
ghost use Rattle.replies.specs.View.{reply_of};

use crate::answer::{Answer, Status};
use crate::fetching::Unread;
use outside::NoMemory;
use std::alloc::Global;

fn cannot_read(alloc: Global, front: &str, file: &str) -> Result<Answer, NoMemory>
    ensures { IfOk result (λ r. reply_of r ≡ replies.cannot_read front.now file.now) }
{
    let line = format!(in alloc; "{front}cannot read {file}\n")?;
    Ok(Answer {
        status: Status::ReadFault,
        text: line.into_bytes(),
    })
}

fn too_long(alloc: Global, front: &str, file: &str) -> Result<Answer, NoMemory>
    ensures { IfOk result (λ r. reply_of r ≡ replies.too_long front.now file.now) }
{
    let line = format!(in alloc; "{front}{file}: too long\n")?;
    Ok(Answer {
        status: Status::Malformed,
        text: line.into_bytes(),
    })
}

/// The answer that tells why files were not had: one line, which begins with `front`, as each line of a program does.
pub fn unread_answer(alloc: Global, front: &str, unread: Unread<'_>) -> Result<Answer, NoMemory>
    ensures { IfOk result (λ r.
        Tells (replies.cannot_read front.now) (replies.too_long front.now) unread.entry (reply_of r)) }
{
    match unread {
        Unread::Failed(file) => cannot_read(alloc, front, file),
        Unread::TooLong(file) => too_long(alloc, front, file),
        Unread::NoMemory => Err(NoMemory),
    }
}
