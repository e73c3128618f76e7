//! The report.

ghost use Rattle.std.specs.Prelude.{◌≡◌, ◌++◌, IfOk};
ghost use Rattle.report_text.specs.RunReport.{found_of};
ghost use Rattle.run_check.specs.check_report.CheckReport.{lawful_report_of, unlawful_report_of};

use crate::broken_laws::Law;
use crate::check_report::verdict::{push_unlawful, push_verdict};
use fraction128::Frac;
use net_cells::cell_table::Table;
use net_model::Network;
use report_text::{RunFound, ShownValue, push_head, push_peaks, push_run_line, push_worsts};
use std::alloc::{AllocError, Global};

/// The report on a recorded run that is lawful, with the bounds that a table has: how many servers and live flows there
/// are; how many packets entered, and when the run ends; for each live flow, by number, its worst delay beside its bound;
/// for each server, in the order of the file, and each of its queues the greatest backlog beside its bound; and that the
/// run is admissible, or what it breaks first. Refused only for want of memory. (Own choice.)
#[tactic(auto, unfolding(crate::specs::check_report::CheckReport::lawful_report_of))]
pub fn lawful_text<V: ShownValue, T: Table<V>>(
    alloc: Global,
    net: &Network,
    table: &T,
    found: &RunFound,
) -> Result<Vec<u8>, AllocError>
    ensures { IfOk result (λ text. text.items ≡ lawful_report_of net.now (T.at table.now) (found_of found.now)) }
{
    let mut text = Vec::new(alloc);
    push_head(&mut text, net)?;
    push_run_line(&mut text, found.packets, &found.end)?;
    push_worsts(&mut text, net, table, &found.worst)?;
    push_peaks(&mut text, net, table, &found.peaks)?;
    push_verdict(&mut text, net, &found.breach)?;
    Ok(text)
}

/// The report on a recorded run that is not: how many servers and live flows there are; how many packets entered, and when
/// the run ends; and which law it breaks first, at which row. Refused only for want of memory. (Own choice.)
#[tactic(auto, unfolding(crate::specs::check_report::CheckReport::unlawful_report_of))]
pub fn unlawful_text(
    alloc: Global,
    net: &Network,
    packets: u32,
    end: &Frac,
    row: u32,
    law: Law,
) -> Result<Vec<u8>, AllocError>
    ensures { IfOk result (λ text. text.items ≡ unlawful_report_of net.now packets end.now row law) }
{
    let mut text = Vec::new(alloc);
    push_head(&mut text, net)?;
    push_run_line(&mut text, packets, end)?;
    push_unlawful(&mut text, row, law)?;
    Ok(text)
}
