//! The summary.

ghost use Rattle.std.specs.Prelude.{◌≡◌, ◌++◌, codes, IfOk, OnOk};
ghost use Rattle.std.specs.Fmt.{decimal};
ghost use Rattle.report_text.specs.RunReport.{found_of};
ghost use Rattle.exercise_load.specs.exercise_report.Summary as spec;

use crate::exercise_report::largest::{largest_bound, largest_delay};
use fraction128::Ext;
use net_cells::cell_table::Table;
use net_model::Network;
use report_text::{
    RunFound, ShownValue, live_count, push_breach_line, push_decimal, push_number, push_text,
};
use std::alloc::{AllocError, Global};

#[tactic(auto, unfolding(crate::specs::exercise_report::Summary::title_line))]
fn push_title(into: &mut Vec<u8>, seed: u64) -> Result<(), AllocError>
    ensures { OnOk result (into.new.items ≡ into.old.items ++ spec.title_line seed) }
{
    push_text(into, "exercise ")?;
    push_decimal(into, seed as usize)?;
    push_text(into, "\n")
}

fn push_packets(into: &mut Vec<u8>, packets: u32) -> Result<(), AllocError>
    ensures { OnOk result (into.new.items ≡
        into.old.items ++ (codes " packets " ++ decimal packets ++ codes "\n")) }
{
    push_text(into, " packets ")?;
    push_decimal(into, packets as usize)?;
    push_text(into, "\n")
}

#[tactic(auto, unfolding(crate::specs::exercise_report::Summary::count_line))]
fn push_counts(into: &mut Vec<u8>, net: &Network, packets: u32) -> Result<(), AllocError>
    ensures { OnOk result (into.new.items ≡ into.old.items ++ spec.count_line net.now packets) }
{
    push_text(into, "servers ")?;
    push_decimal(into, net.servers().len())?;
    push_text(into, " flows ")?;
    push_decimal(into, live_count(net))?;
    push_packets(into, packets)
}

#[tactic(auto, unfolding(crate::specs::exercise_report::Summary::bound_line))]
fn push_bound(into: &mut Vec<u8>, most: &Ext) -> Result<(), AllocError>
    ensures { OnOk result (into.new.items ≡ into.old.items ++ spec.bound_line most.now) }
{
    push_text(into, "largest bound ")?;
    push_number(into, most)?;
    push_text(into, "\n")
}

#[tactic(auto, unfolding(crate::specs::exercise_report::Summary::worst_line))]
fn push_worst(into: &mut Vec<u8>, found: &RunFound) -> Result<(), AllocError>
    ensures { OnOk result (into.new.items ≡ into.old.items ++ spec.worst_line (found_of found.now)) }
{
    push_text(into, "largest worst ")?;
    largest_delay(&found.worst).print(into)?;
    push_text(into, "\n")
}

/// The summary of a workload: its number; how many servers, live flows and packets there are; the largest bound of a
/// flow that a table has, and the largest of the worst delays that were found (both in units of time); and what the run
/// breaks first. Refused only for want of memory. (Own choice.)
#[tactic(auto, unfolding(crate::specs::exercise_report::Summary::summary_of))]
pub fn summary_text<V: ShownValue, T: Table<V>>(
    alloc: Global,
    seed: u64,
    net: &Network,
    table: &T,
    found: &RunFound,
) -> Result<Vec<u8>, AllocError>
    ensures { IfOk result (λ text. text.items ≡ spec.summary_of seed net.now (T.at table.now) (found_of found.now)) }
{
    let most = largest_bound(net, table);
    let mut text = Vec::new(alloc);
    push_title(&mut text, seed)?;
    push_counts(&mut text, net, found.packets)?;
    push_bound(&mut text, &most)?;
    push_worst(&mut text, found)?;
    push_breach_line(&mut text, net, &found.breach)?;
    Ok(text)
}
