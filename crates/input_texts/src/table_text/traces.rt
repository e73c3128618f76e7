//! Traces from their text.

ghost use Rattle.std.specs.Prelude.{◌≡◌, ◌⊎◌, ◌++◌, ◌∷◌, [], true, false, All, AllPairs, IfOk, IfErr, OnOk};
ghost use Rattle.rational.specs.Rational.{◌≤ℚ◌};
ghost use Rattle.csv.specs.Records.{fields_of};
ghost use Rattle.net_model.specs.Traces.{IsTracePacket, IsStall};
ghost use Rattle.input_texts.specs.declared.table_text.fault.TableKind.TheVariants.{T6, NoMemory};
ghost use Rattle.input_texts.specs.table_text.Rows.{rows_of};
ghost use Rattle.input_texts.specs.table_text.Kept.{Adds};
ghost use Rattle.input_texts.specs.table_text.Traces.{IsEarlier, IsWrong, IsTraceOf, IsFirstFault, out_of_memory};

use crate::table_text::fault::{TableFault, TableKind, fault_at};
use crate::table_text::rows::first_rows;
use crate::table_text::trace_rows::{Entry, entry_in};
use csv::ByteRecord;
use fraction128::{Frac, is_less};
use net_model::{Network, Stall, Trace, TracePacket};
use std::alloc::Global;

const MOST_ROWS: usize = 10_000;

// Whether a time is before one of these packets'.
fn is_earlier(packets: &[TracePacket], time: Frac) -> bool
    requires { AllPairs (λ p q. p.time ≤ℚ q.time) packets.now }
    ensures earlier { result ≡ true → IsEarlier packets.now time }
    ensures later { result ≡ false → All (λ p. p.time ≤ℚ time) packets.now }
{
    match packets.last() {
        Some(last) => is_less(time, last.time),
        None => false,
    }
}

// Puts a packet behind others, unless it enters before one of them.
fn add_packet(packets: &mut Vec<TracePacket>, packet: TracePacket) -> Result<(), TableKind>
    requires { AllPairs (λ p q. p.time ≤ℚ q.time) packets.old.items }
    ensures adds { OnOk result (packets.new.items ≡ packets.old.items ++ packet ∷ []) }
    ensures follows { OnOk result (All (λ p. p.time ≤ℚ packet.time) packets.old.items) }
    ensures wrong { IfErr result (λ kind. (kind ≡ NoMemory) ⊎ ((kind ≡ T6) × IsEarlier packets.old.items packet.time)) }
{
    if is_earlier(packets, packet.time) {
        return Err(TableKind::T6);
    }
    packets.push(packet)?;
    Ok(())
}

// Puts what a row gives behind what the rows before it gave.
fn add_row(
    net: &Network,
    before: usize,
    row: &ByteRecord,
    packets: &mut Vec<TracePacket>,
    stalls: &mut Vec<Stall>,
) -> Result<(), TableKind>
    requires { AllPairs (λ p q. p.time ≤ℚ q.time) packets.old.items }
    ensures adds { OnOk result (Adds net.now before (fields_of row.now) packets.old.items stalls.old.items
        packets.new.items stalls.new.items) }
    ensures wrong { IfErr result (λ kind. (kind ≡ NoMemory)
        ⊎ IsWrong net.now before packets.old.items (fields_of row.now) kind) }
{
    if before >= MOST_ROWS {
        return Err(TableKind::T7);
    }
    match entry_in(net, row)? {
        Entry::Packet(packet) => add_packet(packets, packet),
        Entry::Stop(stall) => {
            stalls.push(stall)?;
            Ok(())
        }
    }
}

/// The trace of a network that a text is: a row is `packet,TIME,FLOW,BITS` or `stall,SERVER,FROM,TO`, times are numbers
/// from 0 on, a packet has 1 to 2^24 bits, FROM is before TO, and the times of the packets do not fall; there are at
/// most 10,000 rows. Refused by the first row that is wrong, and by the first of its faults; else only for want of
/// memory, with row 0. (The format is own choice.)
pub fn read_trace(alloc: Global, text: &[u8], net: &Network) -> Result<Trace, TableFault>
    ensures ok { IfOk result (IsTraceOf net.now (rows_of text.now)) }
    ensures fault { IfErr result (λ e. (e ≡ out_of_memory) ⊎ IsFirstFault net.now text.now e.kind e.row) }
{
    let rows = match first_rows(alloc, text, MOST_ROWS + 1) {
        Ok(rows) => rows,
        Err(kind) => return Err(fault_at(kind, 0)),
    };
    let mut packets = Vec::new(alloc);
    let mut stalls = Vec::new(alloc);
    for (before, row) in rows.iter().enumerate() {
        match add_row(net, before, row, &mut packets, &mut stalls) {
            Ok(()) => {}
            Err(kind) => return Err(fault_at(kind, before as u32 + 1)),
        }
    }
    Ok(Trace::new(packets, stalls))
}
