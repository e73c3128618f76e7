//! Rows of a trace.

ghost use Rattle.std.specs.Prelude.{◌≡◌, ◌<◌, IfOk, IfErr, true};
ghost use Rattle.csv.specs.Records.{fields_of};
ghost use Rattle.net_model.specs.Traces.{IsTracePacket, IsStall};
ghost use Rattle.input_texts.specs.table_text.Rows as rows;
ghost use Rattle.input_texts.specs.table_text.TraceRows as spec;
ghost use Rattle.input_texts.specs.table_text.Kept.{IsKept};

use crate::table_text::fault::TableKind;
use crate::table_text::fields::{bits_in, number_in, time_in};
use crate::table_text::rows::{is_plain, text_at};
use csv::ByteRecord;
use fraction128::is_less;
use net_model::{Network, Stall, TracePacket};

/// The words with which rows begin.
#[derive(Clone, Copy)]
pub enum TraceWord {
    Packet,
    Stall,
}

/// What a row puts into a trace.
#[derive(Clone, Copy)]
pub enum Entry {
    /// A packet enters.
    Packet(TracePacket),
    /// A server stalls.
    Stop(Stall),
}

fn trace_word(text: &str) -> Option<TraceWord>
    ensures { result ≡ spec.trace_word text.now }
{
    if text == "packet" {
        return Some(TraceWord::Packet);
    }
    if text == "stall" {
        return Some(TraceWord::Stall);
    }
    None
}

fn packet_in(net: &Network, row: &ByteRecord) -> Result<Entry, TableKind>
    requires { rows.is_plain (fields_of row.now) ≡ true }
    ensures gives { IfOk result (λ e. spec.Gives net.now (spec.packet_of (fields_of row.now)) e) }
    ensures kept { IfOk result IsKept }
    ensures wrong { IfErr result (spec.IsWrongIn net.now (spec.packet_of (fields_of row.now))) }
{
    let Some(time) = time_in(text_at(row, 1)) else {
        return Err(TableKind::T4);
    };
    let Some(bits) = bits_in(text_at(row, 3)) else {
        return Err(TableKind::T4);
    };
    match net.flow_named(text_at(row, 2)) {
        Some(flow) => Ok(Entry::Packet(TracePacket { time, flow, bits })),
        None => Err(TableKind::T5),
    }
}

fn stall_in(net: &Network, row: &ByteRecord) -> Result<Entry, TableKind>
    requires { rows.is_plain (fields_of row.now) ≡ true }
    ensures gives { IfOk result (λ e. spec.Gives net.now (spec.stall_of (fields_of row.now)) e) }
    ensures kept { IfOk result IsKept }
    ensures wrong { IfErr result (spec.IsWrongIn net.now (spec.stall_of (fields_of row.now))) }
{
    let Some(start) = time_in(text_at(row, 2)) else {
        return Err(TableKind::T4);
    };
    let Some(end) = number_in(text_at(row, 3)) else {
        return Err(TableKind::T4);
    };
    if !is_less(start, end) {
        return Err(TableKind::T4);
    }
    match net.server_named(text_at(row, 1)) {
        Some(server) => Ok(Entry::Stop(Stall { server, start, end })),
        None => Err(TableKind::T5),
    }
}

fn entry_with(net: &Network, word: TraceWord, row: &ByteRecord) -> Result<Entry, TableKind>
    requires { rows.is_plain (fields_of row.now) ≡ true }
    ensures gives { IfOk result (λ e. spec.Gives net.now (spec.row_with word (fields_of row.now)) e) }
    ensures kept { IfOk result IsKept }
    ensures wrong { IfErr result (spec.IsWrongIn net.now (spec.row_with word (fields_of row.now))) }
{
    match word {
        TraceWord::Packet => packet_in(net, row),
        TraceWord::Stall => stall_in(net, row),
    }
}

/// What a row puts into a trace of a network, or what is wrong with it by itself.
#[tactic(auto, unfolding(crate::specs::table_text::TraceRows::trace_row))]
pub(crate) fn entry_in(net: &Network, row: &ByteRecord) -> Result<Entry, TableKind>
    ensures gives { IfOk result (λ e. spec.Gives net.now (spec.trace_row (fields_of row.now)) e) }
    ensures kept { IfOk result IsKept }
    ensures wrong { IfErr result (spec.IsWrongIn net.now (spec.trace_row (fields_of row.now))) }
{
    if !is_plain(row) {
        return Err(TableKind::T1);
    }
    let Some(word) = trace_word(text_at(row, 0)) else {
        return Err(TableKind::T2);
    };
    if row.len() != 4 {
        return Err(TableKind::T3);
    }
    entry_with(net, word, row)
}
