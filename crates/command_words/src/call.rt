//! What a taken command line asks for.

ghost use Rattle.std.specs.Prelude.{◌≡◌, ◌++◌, Bool, List, map, option_map, IfOk, IsSome, OnOk};
ghost use Rattle.std.specs.Option.{option_to_list};
ghost use Rattle.clap.specs.Words.{Text, rows_of, subcommand_rows_of};
ghost use Rattle.clap.specs.Matches.{found_of};
ghost use Rattle.command_words.specs.Lines.{AreTaken, IsCallOf, texts};
ghost use Rattle.command_words.specs.Reads.{values_in, HasCalled};

use crate::command::netcalc;
use clap::ArgMatches;
use clap::error::ErrorKind;
use std::alloc::{AllocError, Global};

/// A command, its operands in their order, and whether its report is to be JSON.
#[derive(Drop)]
pub struct Call<'a> {
    pub word: &'a str,
    pub operands: Vec<&'a str>,
    pub json: bool,
}

fn push_given<'a>(into: &mut Vec<&'a str>, given: Option<&'a str>) -> Result<(), AllocError>
    ensures { OnOk result (map (λ s. s.now) into.new.items
        ≡ map (λ s. s.now) into.old.items ++ option_to_list (option_map (λ s. s.now) given.entry)) }
{
    match given {
        Some(word) => {
            into.push(word)?;
            Ok(())
        }
        None => Ok(()),
    }
}

fn operands_in<'a>(alloc: Global, matches: &ArgMatches<'a>) -> Result<Vec<&'a str>, AllocError>
    ensures { IfOk result (λ v. map (λ s. s.now) v.items ≡ values_in (rows_of (found_of matches.now))) }
{
    let mut operands = Vec::new(alloc);
    push_given(&mut operands, matches.get_str("first"))?;
    push_given(&mut operands, matches.get_str("second"))?;
    push_given(&mut operands, matches.get_str("third"))?;
    push_given(&mut operands, matches.get_str("fourth"))?;
    Ok(operands)
}

// The call that these matches tell.
fn call_of<'a>(alloc: Global, matches: &ArgMatches<'a>) -> Result<Call<'a>, AllocError>
    requires { IsSome (subcommand_rows_of matches.now) }
    ensures { IfOk result (λ c. (word : Text) → (operands : List Text) → (json : Bool)
        → HasCalled (subcommand_rows_of matches.now) word operands json
        → (c.word.now ≡ word) × (map (λ s. s.now) c.operands.items ≡ operands) × (c.json ≡ json)) }
{
    match matches.subcommand() {
        Some((word, inner)) => {
            let operands = operands_in(alloc, inner)?;
            let json = inner.get_flag("json");
            Ok(Call {
                word,
                operands,
                json,
            })
        }
        None => unreachable!(),
    }
}

/// The call that a taken command line asks for. Refused only for want of memory.
pub fn parse<'a>(alloc: Global, words: &'a [String]) -> Result<Call<'a>, AllocError>
    requires { AreTaken (texts words.now) }
    ensures { IfOk result
        (λ c. IsCallOf (texts words.entry.now) c.word.now (map (λ s. s.now) c.operands.items) c.json) }
{
    let command = netcalc(alloc)?;
    match command.try_get_matches_from(words) {
        Ok(matches) => call_of(alloc, &matches),
        Err(error) => match error.kind() {
            ErrorKind::OutOfMemory => Err(AllocError),
            _ => unreachable!(),
        },
    }
}
