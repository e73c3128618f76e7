//! The top call.

ghost use Rattle.std.specs.Prelude.{◌≡◌, ◌≢◌, ◌≤◌, ◌⊎◌, None, IfSome};
ghost use Rattle.outside.specs.Fetching.{FetchesAll, FetchesUpTo};
ghost use Rattle.outside.specs.Written.{output};
ghost use Rattle.upp_limits.specs.declared.own_limits.OverLimit.TheVariants as limits;
ghost use Rattle.command_replies.specs.Replies.{Reply, usage, cannot_read, too_long};
ghost use Rattle.command_replies.specs.View.{code_of};
ghost use Rattle.netcalc_cli.specs.Commands.{files_of, names_of, IsMalformed, IsOver, IsCyclic, TellsBreach, IsDone};
ghost use Rattle.netcalc_cli.specs.Counts.{CountsOnCall};
ghost use Rattle.outside.specs.Files.{IsTooLong, FirstIs};
ghost use Rattle.netcalc_cli.specs.Files.{most_bytes};
ghost use Rattle.netcalc_cli.specs.Reply.{commands, StandsOnFiles, MayReply, FailedAt};
ghost use Rattle.netcalc_cli.specs.Reply.{Gives, GivesOnTold, AnswersWhatItCan, Brings, FailsToGive};
ghost use Rattle.netcalc_cli.specs.Words.{texts, command_of};

use crate::answering::answer_to;
use crate::words::{parsed, taken};
use outcomes::Steps;
use outside::{Inputs, Sink};
use replies::Status;
use std::sync::ledger::Ledger;

const USAGE: &str = "netcalc: usage: \
    netcalc analyse NET [--json], edit NET EDITS [--json], simulate NET TRACE, exercise N, check NET RUN, \
    measure NET TRACE FLOW RATE, curve FILE\n";

// Gives an answer: puts its text, and returns its status, or that the sink failed.
fn give<K: Sink>(out: &mut K, status: Status, text: &[u8]) -> u8
    requires { code_of status ≢ 4 }
    ensures given { let reply : Reply = record { status = code_of status; bytes = text.now } in
        result ≢ 4 → Gives result (output K.written K.puts out.old) (output K.written K.puts out.new) reply }
    ensures failed { let reply : Reply = record { status = code_of status; bytes = text.now } in
        result ≡ 4 → FailsToGive K.faults K.written K.puts out.old out.new reply }
    ensures status { result ≤ 9 }
{
    replies::give(out, status.code(), text)
}

/// Does what the words ask for, and gives the status. The program's name is the first word. Words that are taken are
/// parsed with `clap`, which refuses them only for want of memory.
///
/// `analyse NET` reads a file of a network, and writes the bounds on its delays and backlogs. The order is: the
/// words, the file, its tables, its curves, the order of its servers, the cells, one `put`. `edit NET EDITS` fetches
/// both files first, and reads the second one after the first one's curves. After the cells the edits are made in
/// turn, and what is said of each is written before the bounds of the network after them. `simulate NET TRACE`
/// fetches both files first, and reads the second one after the first one's curves. After the cells come the
/// simulation and what its run breaks first, and its worst values are written beside the bounds. `exercise N` fetches
/// no file: it does the same with the network and the trace of a workload that the number makes, and writes its
/// largest bound and largest worst delay. `measure NET TRACE FLOW RATE` fetches both files first, reads the second
/// one after the first one's curves, and writes the least arrival curve of the flow's packets and the least bucket of
/// the rate that they keep. `curve FILE` reads a script of curve expressions, and writes its answers. The order is:
/// the words, the file, its lines, its statements, one `put`. With `--json`, once at any place after the word, `analyse`
/// and `edit` write their report as JSON. Each refusal but 4 and 5 writes one line, in either form.
pub fn run<I: Inputs, K: Sink, L: Ledger>(
    words: &[String],
    inputs: &mut I,
    out: &mut K,
    steps: &mut Steps<L>,
) -> u8
    // 0 to 9, each of which has its clause; there is no other.
    ensures status { result ≤ 9 }

    // 2 exactly where the words are not taken; or 4, where the usage line is not written.
    ensures usage { result ≡ 2 → command_of (texts words.now) ≡ None }
    ensures not_taken { command_of (texts words.now) ≡ None →
        Gives result (output K.written K.puts out.old) (output K.written K.puts out.new) (usage commands) ⊎ (result ≡ 4) }

    // 3 only where the inputs failed in this call, and last at the file that the line names; those before it may fit.
    ensures read_fault { result ≡ 3 → IfSome (command_of (texts words.now)) (λ command.
        FirstIs most_bytes (I.content inputs.old) (λ file. FailedAt I.faults I.last_fault file inputs.old inputs.new
        × Gives result (output K.written K.puts out.old) (output K.written K.puts out.new) (cannot_read file)) (files_of command)) }

    // 1 only where a file, the first that does not fit, has more bytes than a file may have, or the files break a rule,
    // the first of which the line names, or no live flow has the name, which the line tells.
    ensures malformed { result ≡ 1 → IfSome (command_of (texts words.now)) (λ command.
        FirstIs most_bytes (I.content inputs.old) (λ file. IsTooLong most_bytes (I.content inputs.old file)
        × Gives result (output K.written K.puts out.old) (output K.written K.puts out.new) (too_long file)) (files_of command)
        ⊎ Brings IsMalformed (I.content inputs.old) command result (output K.written K.puts out.old) (output K.written K.puts out.new)) }

    // 7 only where the first that is over a limit has too many pieces: of the curves of a network's file, or else of its
    // cells, or of `measure` else the flow's packets, or else their burst; of a workload's cells; of the curves,
    // operators and values of a script. The line names it.
    ensures too_many { result ≡ 7 → IfSome (command_of (texts words.now)) (λ command.
        Brings (IsOver limits.TooMany) (I.content inputs.old) command result (output K.written K.puts out.old) (output K.written K.puts out.new)) }

    // 6 only where that first one has too wide numbers; or none is over a limit but the simulation, or the recorded run.
    ensures too_wide { result ≡ 6 → IfSome (command_of (texts words.now)) (λ command.
        Brings (IsOver limits.TooWide) (I.content inputs.old) command result (output K.written K.puts out.old) (output K.written K.puts out.new)) }

    // 8 only where the network of the file has a cycle, which the line tells.
    ensures cycle { result ≡ 8 → IfSome (command_of (texts words.now)) (λ command.
        Brings IsCyclic (I.content inputs.old) command result (output K.written K.puts out.old) (output K.written K.puts out.new)) }

    // 9 only where the run of `simulate` or `exercise` breaks a premise, or that of `check` a law or a premise; the whole
    // report is written, and its table is kept by every run of the network that keeps the premises.
    ensures breach { result ≡ 9 → IfSome (command_of (texts words.now)) (λ command.
        Brings TellsBreach (I.content inputs.old) command result (output K.written K.puts out.old) (output K.written K.puts out.new)) }

    // 0 only where what was asked for is written. Of `analyse`: the file gives a network whose cells have their
    // answers in a table that meets the equations, and the report, line by line or as JSON, has the numbers of the
    // table, which every run of the network keeps. By a law `unbounded` stands for infinity alone. Of `edit`: so it is
    // for the network that the edits leave, and what is said of each is its answer by the network that those before
    // it left. Of `simulate`: so it is for the file's network, and the stated run of it with the trace keeps all
    // premises; no number of the run is above its bound. Of `exercise`: so it is for the workload's network and trace,
    // and in every run of the network that keeps the premises no packet takes longer than the largest bound that is
    // written. Of `check`: so it is for the file's network, and the recorded run is lawful and keeps all premises. Of
    // `measure`: the steps are those of the least arrival curve of the packets of the live flow with the name; they
    // keep it, and each curve that they keep is at least it; and they keep the bucket of the burst and the rate, and
    // no bucket of this rate with a smaller burst. Of `curve`: the answers that the script finds and means.
    ensures done { result ≡ 0 → IfSome (command_of (texts words.now)) (λ command.
        Brings IsDone (I.content inputs.old) command result (output K.written K.puts out.old) (output K.written K.puts out.new)) }

    // 4 only where the sink failed in this call; there was one put, of a reply's bytes, a front of which is written.
    ensures write_fault { result ≡ 4 → (reply : Reply)
        × MayReply I.content I.faults I.last_fault (command_of (texts words.now)) inputs.old inputs.new reply
        × FailsToGive K.faults K.written K.puts out.old out.new reply }

    // 5: nothing is written, and there is no put.
    ensures no_memory { result ≡ 5 → K.written out.new ≡ K.written out.old }
    ensures no_put { result ≡ 5 → K.puts out.new ≡ K.puts out.old }

    // Where it is told what the files hold, 3, 4 and 5 are the only other answers than the one on that.
    ensures told { IfSome (command_of (texts words.now)) (λ command.
        GivesOnTold command (I.content inputs.old) result (output K.written K.puts out.old) (output K.written K.puts out.new)) }

    // So 0, or of `simulate`, `exercise` and `check` 0 or 9, is the only other one where the files hold what can be
    // answered: a network without a cycle, no curve and no cell of which is over a limit, of `edit` with a list without
    // a fault, of `simulate` with a trace without a fault, and a simulation that is not too wide, of `check` with a run
    // without a fault, whose numbers are not too wide; a workload no cell of which is over a limit, nor its simulation
    // too wide; a network and a trace without a fault, with a live flow of the name,
    // where no curve is over a limit, nor the packets, nor the burst; a script without a fault, nothing in which is
    // over a limit.
    ensures complete { IfSome (command_of (texts words.now)) (λ command.
        AnswersWhatItCan command (I.content inputs.old) result) }

    // Every answer but 4 and 5 is the status of a reply that words and inputs may bring; there was one put, of its bytes,
    // which are written.
    ensures answers { result ≢ 4 → result ≢ 5 → (reply : Reply)
        × MayReply I.content I.faults I.last_fault (command_of (texts words.now)) inputs.old inputs.new reply
        × Gives result (output K.written K.puts out.old) (output K.written K.puts out.new) reply }

    // Only the files that the words name are asked for, in their order, each once, and none behind one that is not had:
    // for words that are not taken, and for `exercise`, none; all are had for an answer on what they hold.
    ensures asked { FetchesUpTo I.asked I.had (names_of (command_of (texts words.now))) inputs.old inputs.new }
    ensures asked_all { StandsOnFiles result →
        FetchesAll I.asked I.had (names_of (command_of (texts words.now))) inputs.old inputs.new }

    // Of `analyse` and `simulate` no more steps than the operators of the folds of the file's closures, and exactly
    // those where the file gives a network, unless memory is wanting or the answer cannot be written; after these the
    // work of all cells; where the report is written, exactly that work. Of `edit` beside these no more
    // than the work of the touched cells of each edit, where the edits have that work (`WorkOfEdits`): a law says that
    // they have it where the report is written, and there it is no less than that of the edits that are taken. Of
    // `check` as of `simulate`. Of `exercise` no more than the work of all cells, and where the summary is written
    // exactly that.
    // Of `measure` one step after the folds. Of `curve` those that are counted as its statements find something: one for
    // each operator that is looked at, and of a closure those of its fold.
    ensures counts { CountsOnCall I.content (command_of (texts words.now)) inputs.old result steps.old steps.new }
{
    let Some(alloc) = taken(words) else {
        return give(out, Status::Usage, USAGE.as_bytes());
    };
    let Ok(command) = parsed(alloc, words) else {
        return Status::NoMemory.code();
    };
    match answer_to(alloc, command, inputs, steps) {
        Ok(answer) => give(out, answer.status, &answer.text),
        Err(_) => Status::NoMemory.code(),
    }
}
