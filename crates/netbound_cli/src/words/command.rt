//! The command line of netbound.

ghost use Rattle.std.specs.Prelude.{◌≡◌, false, codes, IfOk};
ghost use Rattle.clap.specs.Words.{app_of, rule_of, new_app, with_rule};
ghost use Rattle.clap.specs.declared.builder.command.Command.TheViews.{out-Command};
ghost use Rattle.netbound_cli.specs.words.Apps.{operand_rule, overhead_rule, json_rule, with_version, netbound};

use clap::{Arg, ArgAction, Command};
use std::alloc::{AllocError, Global};

fn operand<'a>(alloc: Global, id: &'a str) -> Arg<'a>
    ensures rule { rule_of result ≡ operand_rule id.now }
    ensures local { result.global ≡ false }
{
    Arg::new(alloc, id).required(true)
}

fn overhead<'a>(alloc: Global) -> Arg<'a>
    ensures rule { rule_of result ≡ overhead_rule }
    ensures local { result.global ≡ false }
{
    Arg::new(alloc, "overhead")
        .long("overhead")
        .action(ArgAction::Set)
}

fn json<'a>(alloc: Global) -> Arg<'a>
    ensures rule { rule_of result ≡ json_rule }
    ensures local { result.global ≡ false }
{
    Arg::new(alloc, "json")
        .long("json")
        .action(ArgAction::SetTrue)
}

// The command with its two operands.
fn with_operands<'a>(alloc: Global) -> Result<Command<'a>, AllocError>
    ensures app { IfOk result (λ c. app_of c ≡ with_rule (with_rule (with_version (new_app (codes "netbound")))
        (operand_rule (codes "ports"))) (operand_rule (codes "links"))) }
    ensures local { IfOk result (λ c. (out-Command c).has_globals ≡ false) }
{
    Command::new(alloc, "netbound")
        .version("1.0.0")
        .arg(operand(alloc, "ports"))?
        .arg(operand(alloc, "links"))
}

/// The whole command line.
pub(crate) fn netbound<'a>(alloc: Global) -> Result<Command<'a>, AllocError>
    ensures { IfOk result (λ c. app_of c ≡ netbound) }
{
    with_operands(alloc)?.arg(overhead(alloc))?.arg(json(alloc))
}
