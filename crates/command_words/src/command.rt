//! The command line of netcalc: one level of subcommands.

ghost use Rattle.std.specs.Prelude.{◌≡◌, false, map, IfOk};
ghost use Rattle.clap.specs.Words.{app_of, rule_of};
ghost use Rattle.clap.specs.declared.builder.command.Command.TheViews.{out-Command};
ghost use Rattle.command_words.specs.Apps.{argument_rule, of_arguments, netcalc};

use clap::{Arg, ArgAction, Command};
use std::alloc::{AllocError, Global};

/// Each command and the names of its arguments: its operands in their order, and `json` where it takes the flag `--json`.
const COMMANDS: [(&str, &[&str]); 7] = [
    ("analyse", &["first", "json"]),
    ("edit", &["first", "second", "json"]),
    ("simulate", &["first", "second"]),
    ("exercise", &["first"]),
    ("check", &["first", "second"]),
    ("measure", &["first", "second", "third", "fourth"]),
    ("curve", &["first"]),
];

/// The flag `--json`, or an operand.
fn argument<'a>(alloc: Global, id: &'a str) -> Arg<'a>
    ensures rule { rule_of result ≡ argument_rule id.now }
    ensures local { result.global ≡ false }
{
    if id == "json" {
        Arg::new(alloc, id).long(id).action(ArgAction::SetTrue)
    } else {
        Arg::new(alloc, id).required(true)
    }
}

/// A command by the names of its arguments.
fn of_arguments<'a>(
    alloc: Global,
    word: &'a str,
    ids: &[&'a str],
) -> Result<Command<'a>, AllocError>
    ensures app { IfOk result (λ c. app_of c ≡ of_arguments word.now (map (λ id. id.now) ids.now)) }
    ensures local { IfOk result (λ c. (out-Command c).has_globals ≡ false) }
{
    let mut command = Command::new(alloc, word);
    for id in ids {
        command = command.arg(argument(alloc, id))?;
    }
    Ok(command)
}

/// The whole command line.
pub(crate) fn netcalc<'a>(alloc: Global) -> Result<Command<'a>, AllocError>
    ensures { IfOk result (λ c. app_of c ≡ netcalc) }
{
    let mut whole = Command::new(alloc, "netcalc");
    for (word, ids) in COMMANDS {
        whole = whole.subcommand(of_arguments(alloc, word, ids)?)?;
    }
    Ok(whole)
}
