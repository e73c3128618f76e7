//! The lines of the report.

ghost use Rattle.std.specs.Prelude.{◌≡◌, ◌++◌, codes, OnOk};
ghost use Rattle.std.specs.Fmt.{decimal};
ghost use Rattle.report_text.specs.Shown.{shown};
ghost use Rattle.report_text.specs.Report.{queue_line, flow_line};

use crate::shown::ShownValue;
use crate::text::{push_after, push_decimal, push_number, push_text};
use net_cells::cell_table::Table;
use net_cells::{Cell, Kind};
use std::alloc::AllocError;

// The number of a cell; nothing where the table has none.
fn push_shown<V: ShownValue, T: Table<V>>(
    into: &mut Vec<u8>,
    table: &T,
    kind: Kind,
    a: u32,
    b: u32,
) -> Result<(), AllocError>
    ensures { OnOk result (into.new.items ≡ into.old.items ++ shown (T.at table.now) kind a b) }
{
    match table.value(Cell { kind, a, b }) {
        Some(value) => match value.number() {
            Some(number) => push_number(into, number),
            None => Ok(()),
        },
        None => Ok(()),
    }
}

// Words, and the number of a cell after them.
pub(crate) fn push_number_after<V: ShownValue, T: Table<V>>(
    into: &mut Vec<u8>,
    words: &str,
    table: &T,
    kind: Kind,
    a: u32,
    b: u32,
) -> Result<(), AllocError>
    ensures { OnOk result (into.new.items ≡ into.old.items ++ (words.now ++ shown (T.at table.now) kind a b)) }
{
    push_text(into, words)?;
    push_shown(into, table, kind, a, b)
}

fn push_queue_name(into: &mut Vec<u8>, name: &str, queue: u32) -> Result<(), AllocError>
    ensures { OnOk result (into.new.items ≡
        into.old.items ++ (codes "queue " ++ name.now ++ codes " " ++ decimal queue)) }
{
    push_after(into, "queue ", name)?;
    push_text(into, " ")?;
    push_decimal(into, queue as usize)
}

#[tactic(auto, unfolding(crate::specs::Report::queue_line))]
pub(crate) fn push_queue_line<V: ShownValue, T: Table<V>>(
    into: &mut Vec<u8>,
    name: &str,
    table: &T,
    server: u32,
    queue: u32,
) -> Result<(), AllocError>
    ensures { OnOk result (into.new.items ≡ into.old.items ++ queue_line name.now (T.at table.now) server queue) }
{
    push_queue_name(into, name, queue)?;
    push_number_after(into, " delay ", table, Kind::QueueDelay, server, queue)?;
    push_number_after(into, " backlog ", table, Kind::QueueBacklog, server, queue)?;
    push_text(into, "\n")
}

#[tactic(auto, unfolding(crate::specs::Report::flow_line))]
pub(crate) fn push_flow_line<V: ShownValue, T: Table<V>>(
    into: &mut Vec<u8>,
    name: &str,
    table: &T,
    flow: u32,
) -> Result<(), AllocError>
    ensures { OnOk result (into.new.items ≡ into.old.items ++ flow_line name.now (T.at table.now) flow) }
{
    push_after(into, "flow ", name)?;
    push_number_after(into, " tfa ", table, Kind::Tfa, flow, 0)?;
    push_number_after(into, " sfa ", table, Kind::Sfa, flow, 0)?;
    push_number_after(into, " bound ", table, Kind::Bound, flow, 0)?;
    push_text(into, "\n")
}
