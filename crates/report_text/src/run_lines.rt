//! The lines of the report on a run.

ghost use Rattle.std.specs.Prelude.{◌≡◌, ◌++◌, codes, map, slice_get, OnOk};
ghost use Rattle.std.specs.Fmt.{decimal};
ghost use Rattle.fraction128.specs.Text.{text_of};
ghost use Rattle.report_text.specs.RunReport as spec;

use crate::cell_words::{flow_name, server_name};
use crate::lines::push_number_after;
use crate::shown::ShownValue;
use crate::text::{push_after, push_decimal, push_text};
use fraction128::Frac;
use net_cells::Kind;
use net_cells::cell_table::Table;
use net_model::{Breach, Network};
use std::alloc::AllocError;

fn push_end(into: &mut Vec<u8>, end: &Frac) -> Result<(), AllocError>
    ensures { OnOk result (into.new.items ≡ into.old.items ++ (codes " end " ++ text_of end.now ++ codes "\n")) }
{
    push_text(into, " end ")?;
    end.print(into)?;
    push_text(into, "\n")
}

/// Appends the line that tells how many packets entered a run, and when it ends.
#[tactic(auto, unfolding(crate::specs::RunReport::run_line))]
pub fn push_run_line(into: &mut Vec<u8>, packets: u32, end: &Frac) -> Result<(), AllocError>
    ensures { OnOk result (into.new.items ≡ into.old.items ++ spec.run_line packets end.now) }
{
    push_text(into, "run packets ")?;
    push_decimal(into, packets as usize)?;
    push_end(into, end)
}

// A flow's worst delay; nothing where none is told.
fn push_worst(into: &mut Vec<u8>, worst: &[Frac], flow: u32) -> Result<(), AllocError>
    ensures { OnOk result (into.new.items ≡ into.old.items ++ spec.time_text (slice_get worst.now flow)) }
{
    match worst.get(flow as usize) {
        Some(time) => time.print(into),
        None => Ok(()),
    }
}

#[tactic(auto, unfolding(crate::specs::RunReport::worst_line))]
pub(crate) fn push_worst_line<V: ShownValue, T: Table<V>>(
    into: &mut Vec<u8>,
    name: &str,
    table: &T,
    worst: &[Frac],
    flow: u32,
) -> Result<(), AllocError>
    ensures { OnOk result
        (into.new.items ≡ into.old.items ++ spec.worst_line name.now (T.at table.now) worst.now flow) }
{
    push_after(into, "worst ", name)?;
    push_text(into, " ")?;
    push_worst(into, worst, flow)?;
    push_number_after(into, " bound ", table, Kind::Bound, flow, 0)?;
    push_text(into, "\n")
}

fn push_bits(into: &mut Vec<u8>, bits: &[u64], queue: u32) -> Result<(), AllocError>
    ensures { OnOk result (into.new.items ≡ into.old.items ++ spec.bits_text (slice_get bits.now queue)) }
{
    match bits.get(queue as usize) {
        Some(bits) => push_decimal(into, *bits as usize),
        None => Ok(()),
    }
}

// A queue's greatest backlog; nothing where none is told.
fn push_peak(
    into: &mut Vec<u8>,
    peaks: &[Vec<u64>],
    server: u32,
    queue: u32,
) -> Result<(), AllocError>
    ensures { OnOk result (into.new.items ≡
        into.old.items ++ spec.bits_text (spec.peak_at (map (λ row. row.items) peaks.now) server queue)) }
{
    match peaks.get(server as usize) {
        Some(bits) => push_bits(into, bits, queue),
        None => Ok(()),
    }
}

fn push_peak_name(into: &mut Vec<u8>, name: &str, queue: u32) -> Result<(), AllocError>
    ensures { OnOk result (into.new.items ≡
        into.old.items ++ (codes "peak " ++ name.now ++ codes " " ++ decimal queue ++ codes " ")) }
{
    push_after(into, "peak ", name)?;
    push_text(into, " ")?;
    push_decimal(into, queue as usize)?;
    push_text(into, " ")
}

#[tactic(auto, unfolding(crate::specs::RunReport::peak_line))]
pub(crate) fn push_peak_line<V: ShownValue, T: Table<V>>(
    into: &mut Vec<u8>,
    name: &str,
    table: &T,
    peaks: &[Vec<u64>],
    server: u32,
    queue: u32,
) -> Result<(), AllocError>
    ensures { OnOk result (into.new.items ≡ into.old.items
        ++ spec.peak_line name.now (T.at table.now) (map (λ row. row.items) peaks.now) server queue) }
{
    push_peak_name(into, name, queue)?;
    push_peak(into, peaks, server, queue)?;
    push_number_after(into, " bound ", table, Kind::QueueBacklog, server, queue)?;
    push_text(into, "\n")
}

// A word and a name, each with a space after it.
fn push_named(into: &mut Vec<u8>, word: &str, name: &str) -> Result<(), AllocError>
    ensures { OnOk result (into.new.items ≡ into.old.items ++ (word.now ++ name.now ++ codes " ")) }
{
    push_after(into, word, name)?;
    push_text(into, " ")
}

fn push_breach(into: &mut Vec<u8>, net: &Network, breach: &Breach) -> Result<(), AllocError>
    ensures { OnOk result (into.new.items ≡ into.old.items ++ spec.breach_words net.now (Some breach.now)) }
{
    match breach {
        Breach::Size { flow, packet } => {
            push_named(into, "size ", flow_name(net, *flow))?;
            push_decimal(into, *packet as usize)
        }
        Breach::Arrival { flow, first, last } => {
            push_named(into, "arrival ", flow_name(net, *flow))?;
            push_decimal(into, *first as usize)?;
            push_text(into, " ")?;
            push_decimal(into, *last as usize)
        }
        Breach::Service { server, start, end } => {
            push_named(into, "service ", server_name(net, *server))?;
            start.print(into)?;
            push_text(into, " ")?;
            end.print(into)
        }
    }
}

/// Appends the words that tell what a run breaks first, by the names of its flow or its server, or that it breaks nothing.
pub fn push_breach_words(
    into: &mut Vec<u8>,
    net: &Network,
    breach: &Option<Breach>,
) -> Result<(), AllocError>
    ensures { OnOk result (into.new.items ≡ into.old.items ++ spec.breach_words net.now breach.now) }
{
    match breach {
        Some(found) => push_breach(into, net, found),
        None => push_text(into, "none"),
    }
}

/// Appends the line that tells what a run breaks first, by the names of its flow or its server.
pub fn push_breach_line(
    into: &mut Vec<u8>,
    net: &Network,
    breach: &Option<Breach>,
) -> Result<(), AllocError>
    ensures { OnOk result (into.new.items ≡ into.old.items ++ spec.breach_line net.now breach.now) }
{
    push_text(into, "breach ")?;
    push_breach_words(into, net, breach)?;
    push_text(into, "\n")
}
