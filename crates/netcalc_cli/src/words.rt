//! The words of the command line.
ghost use Rattle.std.specs.Prelude.{◌≡◌, ◌++◌, IfOk, IfSome, IfNone, IsSome, is_some, map, option_map};
ghost use Rattle.std.specs.List.{list_all};
ghost use Rattle.rational.specs.Rational.{◌≤ℚ◌};
ghost use Rattle.min_plus.specs.Functions.{zero_q};
ghost use Rattle.command_words.specs.Lines.{is_operand, operands_of, asks_json};
ghost use Rattle.netcalc_cli.specs.Commands.{HasRate};
ghost use Rattle.netcalc_cli.specs.View.{command_view};
ghost use Rattle.netcalc_cli.specs.Words.{texts, in_64_bits, seed_of, rate_of, on_one, on_two, on_four};
ghost use Rattle.netcalc_cli.specs.Words.{in_lines, in_json, called, command_on, command_of};

use command_words::{around_json, is_operand, parse, word_of};
use fraction128::{Frac, is_less, read_digits};
use outside::NoMemory;
use report_text::json_report::Form;
use std::alloc::Global;

/// What a command line asks for, with the names of its files, and with what its other words say.
#[derive(Clone, Copy)]
pub(crate) enum Command<'a> {
    /// The bounds of a network, in a form.
    Analyse(Form, &'a str),
    /// The bounds of a network after edits, in a form.
    Edit(Form, &'a str, &'a str),
    /// The run of a network and a trace beside the bounds.
    Simulate(&'a str, &'a str),
    /// The summary of the workload of a number, analysed and simulated.
    Exercise(u64),
    /// The verdict on a recorded run of a network.
    Check(&'a str, &'a str),
    /// The least arrival curve of a flow's packets in a trace, by the flow's name, and their least bucket for a rate in
    /// bits a unit of time.
    Measure(&'a str, &'a str, &'a str, Frac),
    /// The answers of a script of curve expressions.
    Curve(&'a str),
}

fn in_64_bits(number: u128) -> Option<u64>
    ensures { result ≡ in_64_bits number }
{
    if number <= u128::from(u64::MAX) {
        Some(number as u64)
    } else {
        None
    }
}

// The number of a workload that a word writes: digits and nothing else, of a number of 64 bits.
fn seed_of(word: &str) -> Option<u64>
    ensures { result ≡ seed_of word.now }
{
    let number = read_digits(word.as_bytes())?;
    in_64_bits(number)
}

// The command of this word on one file, or on a workload's number.
fn on_one<'a>(word: &str, operand: &'a str) -> Option<Command<'a>>
    ensures command { option_map command_view result ≡ on_one word.now operand.now }
    ensures rate { IfSome result (λ c. HasRate (command_view c)) }
{
    if word == "analyse" {
        return Some(Command::Analyse(Form::Lines, operand));
    }
    if word == "curve" {
        return Some(Command::Curve(operand));
    }
    if word != "exercise" {
        return None;
    }
    match seed_of(operand) {
        Some(seed) => Some(Command::Exercise(seed)),
        None => None,
    }
}

// The command of this word on two files.
fn on_two<'a>(word: &str, first: &'a str, second: &'a str) -> Option<Command<'a>>
    ensures command { option_map command_view result ≡ on_two word.now first.now second.now }
    ensures rate { IfSome result (λ c. HasRate (command_view c)) }
{
    if word == "edit" {
        return Some(Command::Edit(Form::Lines, first, second));
    }
    if word == "simulate" {
        return Some(Command::Simulate(first, second));
    }
    if word == "check" {
        return Some(Command::Check(first, second));
    }
    None
}

/// The rate that a word writes: a number text from 0 on.
fn rate_of(word: &str) -> Option<Frac>
    ensures value { result ≡ rate_of word.now }
    ensures from { IfSome result (λ rate. zero_q ≤ℚ rate) }
{
    let Ok(rate) = Frac::parse(word.as_bytes()) else {
        return None;
    };
    if is_less(rate, Frac::zero()) {
        return None;
    }
    Some(rate)
}

// The command of this word on two files, a flow's name and a rate.
fn on_four<'a>(
    word: &str,
    net: &'a str,
    trace: &'a str,
    name: &'a str,
    rate: &str,
) -> Option<Command<'a>>
    ensures command { option_map command_view result ≡ on_four word.now net.now trace.now name.now rate.now }
    ensures rate { IfSome result (λ c. HasRate (command_view c)) }
{
    if word != "measure" {
        return None;
    }
    match rate_of(rate) {
        Some(rate) => Some(Command::Measure(net, trace, name, rate)),
        None => None,
    }
}

// The command of this word on its operands, with a report in lines.
fn in_lines<'a>(word: &str, operands: &[&'a str]) -> Option<Command<'a>>
    ensures command { option_map command_view result ≡ in_lines word.now (map (λ s. s.now) operands.now) }
    ensures rate { IfSome result (λ c. HasRate (command_view c)) }
{
    match operands {
        [operand] => on_one(word, operand),
        [first, second] => on_two(word, first, second),
        [net, trace, name, rate] => on_four(word, net, trace, name, rate),
        _ => None,
    }
}

// The command of this word on its operands, with a report in JSON.
fn in_json<'a>(word: &str, operands: &[&'a str]) -> Option<Command<'a>>
    ensures command { option_map command_view result ≡ in_json word.now (map (λ s. s.now) operands.now) }
    ensures rate { IfSome result (λ c. HasRate (command_view c)) }
{
    match operands {
        [file] if word == "analyse" => Some(Command::Analyse(Form::Json, file)),
        [first, second] if word == "edit" => Some(Command::Edit(Form::Json, first, second)),
        _ => None,
    }
}

// The command of this word on its operands.
fn called<'a>(word: &str, operands: &[&'a str], json: bool) -> Option<Command<'a>>
    ensures command { option_map command_view result ≡ called word.now (map (λ s. s.now) operands.now) json }
    ensures rate { IfSome result (λ c. HasRate (command_view c)) }
{
    if json {
        in_json(word, operands)
    } else {
        in_lines(word, operands)
    }
}

// Whether this word on the words of two lists is a command.
fn is_called(word: &str, before: &[String], after: &[String], json: bool) -> bool
    ensures { result ≡ is_some (called word.now (texts (before.now ++ after.now)) json) }
{
    let count = before.len() + after.len();
    if count == 1 {
        let file = word_of(before, after, 0).as_str();
        return called(word, &[file], json).is_some();
    }
    if count == 2 {
        let first = word_of(before, after, 0).as_str();
        let second = word_of(before, after, 1).as_str();
        return called(word, &[first, second], json).is_some();
    }
    if count == 4 {
        let net = word_of(before, after, 0).as_str();
        let trace = word_of(before, after, 1).as_str();
        let name = word_of(before, after, 2).as_str();
        let rate = word_of(before, after, 3).as_str();
        return called(word, &[net, trace, name, rate], json).is_some();
    }
    false
}

fn are_operands(words: &[String]) -> bool
    ensures { result ≡ list_all is_operand (texts words.now) }
{
    words.iter().all(|word| is_operand(word.as_str()))
}

// Whether the words of two lists are operands.
fn are_all_operands(before: &[String], after: &[String]) -> bool
    ensures { result ≡ list_all is_operand (texts (before.now ++ after.now)) }
{
    are_operands(before) && are_operands(after)
}

// Whether this word is a command on the words of two lists, and these are operands.
fn is_command_on(word: &str, before: &[String], after: &[String], json: bool) -> bool
    ensures { result ≡ is_some (command_on word.now (texts (before.now ++ after.now)) json) }
{
    are_all_operands(before, after) && is_called(word, before, after, json)
}

// Whether this word with what stands behind it is a command on operands.
fn is_command(word: &str, rest: &[String]) -> bool
    ensures { result ≡ is_some (command_on word.now (operands_of (texts rest.now)) (asks_json (texts rest.now))) }
{
    match around_json(rest) {
        Some((before, after)) => is_command_on(word, before, after, true),
        None => is_command_on(word, rest, &[], false),
    }
}

/// The allocator of words, the program's name first. None where they are not taken.
pub(crate) fn taken(words: &[String]) -> Option<Global>
    ensures taken { IfSome result (λ alloc. IsSome (command_of (texts words.now))) }
    ensures not_taken { IfNone result (command_of (texts words.now) ≡ None) }
{
    let [_, word, rest @ ..] = words else {
        return None;
    };
    if !is_command(word.as_str(), rest) {
        return None;
    }
    Some(*word.allocator())
}

/// What taken words ask for, as `clap` parses them. Refused only for want of memory.
pub(crate) fn parsed<'a>(alloc: Global, words: &'a [String]) -> Result<Command<'a>, NoMemory>
    requires { IsSome (command_of (texts words.now)) }
    ensures command { IfOk result (λ c. Some (command_view c) ≡ command_of (texts words.entry.now)) }
    ensures rate { IfOk result (λ c. HasRate (command_view c)) }
{
    let call = parse(alloc, words)?;
    match called(call.word, &call.operands, call.json) {
        Some(command) => Ok(command),
        None => unreachable!(),
    }
}
