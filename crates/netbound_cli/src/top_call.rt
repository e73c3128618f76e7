//! The top call.

ghost use Rattle.std.specs.Prelude.{◌≡◌, ◌≢◌, ◌≤◌, ◌⊎◌, true, false, None, IfSome, IfOk};
ghost use Rattle.outside.specs.Fetching.{FetchesAll, FetchesUpTo};
ghost use Rattle.bounds_command.specs.Laws.{IsReport};
ghost use Rattle.bounds_command.specs.OnTables.{IsFaulty, IsCyclic};
ghost use Rattle.bounds_command.specs.Replies.{Reply, cannot_read, too_long};
ghost use Rattle.bounds_command.specs.View.{code_of, reply_of};
ghost use Rattle.netbound_cli.specs.words.Requests as spec;
ghost use Rattle.netbound_cli.specs.Calls as calls;
ghost use Rattle.netbound_cli.specs.Calls.{call_of, text_of, files_of, names_of, bounds_call};
ghost use Rattle.outside.specs.Files.{IsTooLong, FirstIs};
ghost use Rattle.netbound_cli.specs.Files.{most_bytes};
ghost use Rattle.netbound_cli.specs.Reply.{FailedAt, AsksUpTo, asks_of, MayReply, MayReplyTo, output, Gives, PutsOnce, Brings};
ghost use Rattle.netbound_cli.specs.Reply.{GivesOnTold, AnswersWhatItCan, FailsToGive, IsOnBoth, IsStatus};

use crate::texts::{HELP, USAGE, VERSION};
use crate::words::{Bounds, Request, WordFault, request_of};
use bounds_command::{Form, on_tables};
use outside::{Inputs, NoMemory, Sink};
use replies::{Answer, Status, fetch_two, give, unread_answer};
use std::alloc::Global;

// What each line of a refusal begins with.
const FRONT: &str = "netbound: ";

// The most bytes that a table may have.
const MOST_BYTES: usize = 16_777_216;

// The form of a report.
fn form_of(json: bool) -> Form
    ensures { result ≡ calls.form_of json }
{
    if json { Form::Json } else { Form::Lines }
}

// The answer on the tables of these names.
fn answer_to<I: Inputs>(alloc: Global, asked: Bounds, inputs: &mut I) -> Result<Answer, NoMemory>
    requires { asked.overhead ≤ 1048576 }
    ensures reply { IfOk result (λ r. MayReplyTo I.faults I.last_fault (I.content inputs.old)
        (asks_of I.asked inputs.old inputs.new) (bounds_call asked.entry) inputs.old inputs.new (reply_of r)) }
    ensures asked { FetchesUpTo I.asked I.had (files_of (bounds_call asked.entry)) inputs.old inputs.new }
    ensures all { IfOk result (λ r. IsOnBoth (code_of r.status) →
        FetchesAll I.asked I.had (files_of (bounds_call asked.entry)) inputs.old inputs.new) }
{
    let form = form_of(asked.json);
    match fetch_two(alloc, MOST_BYTES, asked.ports, asked.links, inputs) {
        Ok((ports, links)) => on_tables(
            alloc,
            asked.ports,
            &ports,
            asked.links,
            &links,
            asked.overhead,
            form,
        ),
        Err(unread) => unread_answer(alloc, FRONT, unread),
    }
}

// The answer to words.
fn answered<I: Inputs>(alloc: Global, words: &[String], inputs: &mut I) -> Result<Answer, NoMemory>
    ensures reply { IfOk result (λ r. MayReply I.content I.faults I.last_fault I.asked
        (spec.request_of (spec.texts words.now)) inputs.old inputs.new (reply_of r)) }
    ensures asked { FetchesUpTo I.asked I.had (names_of (spec.request_of (spec.texts words.now))) inputs.old inputs.new }
    ensures all { IfOk result (λ r. IsOnBoth (code_of r.status) →
        FetchesAll I.asked I.had (names_of (spec.request_of (spec.texts words.now))) inputs.old inputs.new) }
{
    match request_of(alloc, words) {
        Ok(Request::Bounds(asked)) => answer_to(alloc, asked, inputs),
        Ok(Request::Help) => text_answer(alloc, Status::Done, HELP),
        Ok(Request::Version) => text_answer(alloc, Status::Done, VERSION),
        Err(WordFault::NotTaken) => text_answer(alloc, Status::Usage, USAGE),
        Err(WordFault::NoMemory) => Err(NoMemory),
    }
}

// An answer of this text.
fn text_answer(alloc: Global, status: Status, text: &str) -> Result<Answer, NoMemory>
    ensures { IfOk result (λ r. reply_of r ≡ record { status = code_of status; bytes = text.now }) }
{
    let text = Vec::from_slice(alloc, text.as_bytes())?;
    Ok(Answer { status, text })
}

/// Does what the words ask for, and gives the status. The program's name is the first word. The order is: the words,
/// both files, the table of ports, that of links, an order of the ports, the bounds, one `put`.
pub fn run<I: Inputs, K: Sink>(alloc: Global, words: &[String], inputs: &mut I, out: &mut K) -> u8
    // 0, 1, 2, 3, 4, 5, 8 or 9, and no other.
    ensures known { IsStatus result }

    // 2 exactly where the words are not taken; or 4 or 5.
    ensures usage { result ≡ 2 → spec.request_of (spec.texts words.now) ≡ None }

    // Where words ask for no bounds: the text that they ask for, or that they are not taken; or 4 or 5.
    ensures text { IfSome (text_of (spec.request_of (spec.texts words.now))) (λ reply.
        Gives result (output K.written K.puts out.old) (output K.written K.puts out.new) reply
        ⊎ ((result ≡ 4) ⊎ (result ≡ 5))) }

    // 3 only where the inputs failed in this call, and last at the file that the line names; that before it may fit, and
    // none behind it is asked for.
    ensures read_fault { result ≡ 3 → IfSome (call_of (spec.request_of (spec.texts words.now))) (λ c.
        FirstIs most_bytes (I.content inputs.old) (λ file. FailedAt I.faults I.last_fault file inputs.old inputs.new
        × Gives result (output K.written K.puts out.old) (output K.written K.puts out.new) (cannot_read file)
        × AsksUpTo (asks_of I.asked inputs.old inputs.new) (files_of c) file) (files_of c)) }

    // 1 only where a file, the first that does not fit, has more bytes than a table may have, and none behind it is asked
    // for, or the document has a fault, the first of which the line tells.
    ensures malformed { result ≡ 1 → IfSome (call_of (spec.request_of (spec.texts words.now))) (λ c.
        FirstIs most_bytes (I.content inputs.old) (λ file. IsTooLong most_bytes (I.content inputs.old file)
        × Gives result (output K.written K.puts out.old) (output K.written K.puts out.new) (too_long file)
        × AsksUpTo (asks_of I.asked inputs.old inputs.new) (files_of c) file) (files_of c)
        ⊎ Brings IsFaulty (I.content inputs.old) (asks_of I.asked inputs.old inputs.new) c result
        (output K.written K.puts out.old) (output K.written K.puts out.new)) }

    // 8 only where the links of the document go round, over the ports that the line tells.
    ensures cycle { result ≡ 8 → IfSome (call_of (spec.request_of (spec.texts words.now))) (λ c.
        Brings IsCyclic (I.content inputs.old) (asks_of I.asked inputs.old inputs.new) c result
        (output K.written K.puts out.old) (output K.written K.puts out.new)) }

    // 0 of a call on tables, and 9, only where the report on the bounds of the document's network is written, by a
    // table that meets the equations; what it says every lawful run of the network keeps that keeps the premises. 9
    // where a branch misses its deadline, by exact numbers, and 0 where none does.
    ensures missed { result ≡ 9 → IfSome (call_of (spec.request_of (spec.texts words.now))) (λ c.
        Brings (IsReport true) (I.content inputs.old) (asks_of I.asked inputs.old inputs.new) c result
        (output K.written K.puts out.old) (output K.written K.puts out.new)) }
    ensures done { result ≡ 0 → IfSome (call_of (spec.request_of (spec.texts words.now))) (λ c.
        Brings (IsReport false) (I.content inputs.old) (asks_of I.asked inputs.old inputs.new) c result
        (output K.written K.puts out.old) (output K.written K.puts out.new)) }

    // 4 only where the sink failed in this call; a front of a reply's bytes is written.
    ensures write_fault { result ≡ 4 → (reply : Reply)
        × MayReply I.content I.faults I.last_fault I.asked (spec.request_of (spec.texts words.now))
        inputs.old inputs.new reply
        × FailsToGive K.faults K.written K.puts out.old out.new reply }

    // 5: nothing is written.
    ensures no_memory { result ≡ 5 → K.written out.new ≡ K.written out.old }

    // Where it is told what the files hold, 3, 4 and 5 are the only other answers than the one on that.
    ensures told { IfSome (call_of (spec.request_of (spec.texts words.now))) (λ c.
        GivesOnTold c (I.content inputs.old) result
        (output K.written K.puts out.old) (output K.written K.puts out.new)) }

    // So 0 or 9 is the only other one where the files are a document whose links do not go round.
    ensures complete { IfSome (call_of (spec.request_of (spec.texts words.now))) (λ c.
        AnswersWhatItCan c (I.content inputs.old) result) }

    // Every answer but 4 and 5 is the status of a reply that words and inputs may bring, whose bytes are written.
    ensures answers { result ≢ 4 → result ≢ 5 → (reply : Reply)
        × MayReply I.content I.faults I.last_fault I.asked (spec.request_of (spec.texts words.now))
        inputs.old inputs.new reply
        × Gives result (output K.written K.puts out.old) (output K.written K.puts out.new) reply }

    // Only the files that the words name are asked for, in their order, each once, and none behind one that is not had,
    // at 5 too: for a text none; all are had for an answer on what they hold.
    ensures asked { FetchesUpTo I.asked I.had (names_of (spec.request_of (spec.texts words.now))) inputs.old inputs.new }
    ensures asked_all { IsOnBoth result →
        FetchesAll I.asked I.had (names_of (spec.request_of (spec.texts words.now))) inputs.old inputs.new }

    // There is one put, of the bytes of such a reply, at 4 too; at 5 there is none.
    ensures one_put { result ≢ 5 → (reply : Reply)
        × MayReply I.content I.faults I.last_fault I.asked (spec.request_of (spec.texts words.now))
        inputs.old inputs.new reply
        × PutsOnce (output K.written K.puts out.old) (output K.written K.puts out.new) reply }
    ensures no_put { result ≡ 5 → K.puts out.new ≡ K.puts out.old }
{
    match answered(alloc, words, inputs) {
        Ok(answer) => give(out, answer.status.code(), &answer.text),
        Err(_) => Status::NoMemory.code(),
    }
}
