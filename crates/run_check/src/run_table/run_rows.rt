//! Rows of a recorded run.

ghost use Rattle.std.specs.Prelude.{◌≡◌, IfOk, IfErr, IfSome, ◌<◌, ◌^◌, true};
ghost use Rattle.csv.specs.Records.{fields_of};
ghost use Rattle.input_texts.specs.table_text.Rows as rows;
ghost use Rattle.run_check.specs.run_table.RunRows as spec;

use crate::run_table::fault::RunKind;
use csv::ByteRecord;
use fraction128::Frac;
use input_texts::table_text::{bits_in, is_plain, number_in, text_at, time_in, whole_in};
use net_model::Network;
use run_laws::Step;

/// The words with which rows begin.
#[derive(Clone, Copy)]
pub enum RunWord {
    Enter,
    Reach,
    Work,
    Leave,
    Visit,
    End,
}

/// What a row puts into a recorded run.
#[derive(Clone, Copy)]
pub enum RunEntry {
    /// A step.
    Does(Step),
    /// The end of the run.
    Ends(Frac),
}

const MOST_INDEX: i64 = 4_294_967_295;

fn run_word(text: &str) -> Option<RunWord>
    ensures { result ≡ spec.run_word text.now }
{
    if text == "enter" {
        return Some(RunWord::Enter);
    }
    if text == "reach" {
        return Some(RunWord::Reach);
    }
    if text == "work" {
        return Some(RunWord::Work);
    }
    if text == "leave" {
        return Some(RunWord::Leave);
    }
    if text == "visit" {
        return Some(RunWord::Visit);
    }
    if text == "end" {
        return Some(RunWord::End);
    }
    None
}

// How many fields a row with this word has.
fn fields_for(word: RunWord) -> usize
    ensures { result ≡ spec.fields_for word }
{
    match word {
        RunWord::Work => 6,
        RunWord::End => 2,
        _ => 4,
    }
}

// The number of a packet or of a queue.
fn index_in(text: &str) -> Option<u32>
    ensures { result ≡ spec.index_in text.now }
{
    let number = whole_in(text)?;
    if 0 <= number && number <= MOST_INDEX {
        Some(number as u32)
    } else {
        None
    }
}

fn enter_in(net: &Network, packet: u32, row: &ByteRecord) -> Result<RunEntry, RunKind>
    requires { rows.is_plain (fields_of row.now) ≡ true }
    ensures gives { IfOk result (spec.Gives net.now packet (spec.enter_of (fields_of row.now))) }
    ensures wrong { IfErr result (spec.IsWrongIn net.now (spec.enter_of (fields_of row.now))) }
{
    let Some(time) = time_in(text_at(row, 1)) else {
        return Err(RunKind::T4);
    };
    let Some(bits) = bits_in(text_at(row, 3)) else {
        return Err(RunKind::T4);
    };
    match net.flow_named(text_at(row, 2)) {
        Some(flow) => Ok(RunEntry::Does(Step::Enter {
            flow,
            packet,
            time,
            bits,
        })),
        None => Err(RunKind::T5),
    }
}

fn reach_in(net: &Network, packet: u32, row: &ByteRecord) -> Result<RunEntry, RunKind>
    requires { rows.is_plain (fields_of row.now) ≡ true }
    ensures gives { IfOk result (spec.Gives net.now packet (spec.reach_of (fields_of row.now))) }
    ensures wrong { IfErr result (spec.IsWrongIn net.now (spec.reach_of (fields_of row.now))) }
{
    let Some(time) = time_in(text_at(row, 1)) else {
        return Err(RunKind::T4);
    };
    let Some(which) = index_in(text_at(row, 3)) else {
        return Err(RunKind::T4);
    };
    match net.server_named(text_at(row, 2)) {
        Some(server) => Ok(RunEntry::Does(Step::Reach {
            server,
            packet: which,
            time,
        })),
        None => Err(RunKind::T5),
    }
}

fn work_in(net: &Network, packet: u32, row: &ByteRecord) -> Result<RunEntry, RunKind>
    requires { rows.is_plain (fields_of row.now) ≡ true }
    ensures gives { IfOk result (spec.Gives net.now packet (spec.work_of (fields_of row.now))) }
    ensures wrong { IfErr result (spec.IsWrongIn net.now (spec.work_of (fields_of row.now))) }
{
    let Some(which) = index_in(text_at(row, 2)) else {
        return Err(RunKind::T4);
    };
    let Some(start) = time_in(text_at(row, 3)) else {
        return Err(RunKind::T4);
    };
    let Some(end) = time_in(text_at(row, 4)) else {
        return Err(RunKind::T4);
    };
    let Some(bits) = number_in(text_at(row, 5)) else {
        return Err(RunKind::T4);
    };
    match net.server_named(text_at(row, 1)) {
        Some(server) => Ok(RunEntry::Does(Step::Work {
            server,
            packet: which,
            start,
            end,
            bits,
        })),
        None => Err(RunKind::T5),
    }
}

fn leave_in(net: &Network, packet: u32, row: &ByteRecord) -> Result<RunEntry, RunKind>
    requires { rows.is_plain (fields_of row.now) ≡ true }
    ensures gives { IfOk result (spec.Gives net.now packet (spec.leave_of (fields_of row.now))) }
    ensures wrong { IfErr result (spec.IsWrongIn net.now (spec.leave_of (fields_of row.now))) }
{
    let Some(time) = time_in(text_at(row, 1)) else {
        return Err(RunKind::T4);
    };
    let Some(which) = index_in(text_at(row, 3)) else {
        return Err(RunKind::T4);
    };
    match net.server_named(text_at(row, 2)) {
        Some(server) => Ok(RunEntry::Does(Step::Leave {
            server,
            packet: which,
            time,
        })),
        None => Err(RunKind::T5),
    }
}

fn visit_in(net: &Network, packet: u32, row: &ByteRecord) -> Result<RunEntry, RunKind>
    requires { rows.is_plain (fields_of row.now) ≡ true }
    ensures gives { IfOk result (spec.Gives net.now packet (spec.visit_of (fields_of row.now))) }
    ensures wrong { IfErr result (spec.IsWrongIn net.now (spec.visit_of (fields_of row.now))) }
{
    let Some(time) = time_in(text_at(row, 1)) else {
        return Err(RunKind::T4);
    };
    let Some(queue) = index_in(text_at(row, 3)) else {
        return Err(RunKind::T4);
    };
    match net.server_named(text_at(row, 2)) {
        Some(server) => Ok(RunEntry::Does(Step::Visit {
            server,
            queue,
            time,
        })),
        None => Err(RunKind::T5),
    }
}

fn end_in(net: &Network, packet: u32, row: &ByteRecord) -> Result<RunEntry, RunKind>
    requires { rows.is_plain (fields_of row.now) ≡ true }
    ensures gives { IfOk result (spec.Gives net.now packet (spec.end_of (fields_of row.now))) }
    ensures wrong { IfErr result (spec.IsWrongIn net.now (spec.end_of (fields_of row.now))) }
{
    match time_in(text_at(row, 1)) {
        Some(time) => Ok(RunEntry::Ends(time)),
        None => Err(RunKind::T4),
    }
}

fn entry_with(
    net: &Network,
    word: RunWord,
    packet: u32,
    row: &ByteRecord,
) -> Result<RunEntry, RunKind>
    requires { rows.is_plain (fields_of row.now) ≡ true }
    ensures gives { IfOk result (spec.Gives net.now packet (spec.row_with word (fields_of row.now))) }
    ensures wrong { IfErr result (spec.IsWrongIn net.now (spec.row_with word (fields_of row.now))) }
{
    match word {
        RunWord::Enter => enter_in(net, packet, row),
        RunWord::Reach => reach_in(net, packet, row),
        RunWord::Work => work_in(net, packet, row),
        RunWord::Leave => leave_in(net, packet, row),
        RunWord::Visit => visit_in(net, packet, row),
        RunWord::End => end_in(net, packet, row),
    }
}

/// What a row puts into a recorded run of a network in which so many packets have entered, or what is wrong with it by
/// itself.
#[tactic(auto, unfolding(crate::specs::run_table::RunRows::run_row))]
pub(crate) fn entry_in(net: &Network, packet: u32, row: &ByteRecord) -> Result<RunEntry, RunKind>
    ensures gives { IfOk result (spec.Gives net.now packet (spec.run_row (fields_of row.now))) }
    ensures wrong { IfErr result (spec.IsWrongIn net.now (spec.run_row (fields_of row.now))) }
{
    if !is_plain(row) {
        return Err(RunKind::T1);
    }
    let Some(word) = run_word(text_at(row, 0)) else {
        return Err(RunKind::T2);
    };
    if row.len() != fields_for(word) {
        return Err(RunKind::T3);
    }
    entry_with(net, word, packet, row)
}
