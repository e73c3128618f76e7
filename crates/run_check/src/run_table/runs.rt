//! Recorded runs from their text.

ghost use Rattle.std.specs.Prelude.{◌≡◌, ◌≢◌, ◌⊎◌, ◌+◌, ◌-◌, ◌<◌, ◌^◌, IfOk, IfErr, MatchOption};
ghost use Rattle.csv.specs.Records.{fields_of};
ghost use Rattle.input_texts.specs.table_text.Rows.{rows_of};
ghost use Rattle.run_check.specs.run_table.Rounds.{AddsStep, SaysEnd, IsWrongNext, IsBehindEnd};
ghost use Rattle.run_check.specs.run_table.Runs as spec;
ghost use Rattle.run_check.specs.run_table.Runs.{IsRunOf, IsFirstFault, out_of_memory};
ghost use Rattle.run_check.specs.declared.run_table.fault.RunKind.TheVariants.{NoMemory};

use crate::run_table::fault::{RunFault, RunKind};
use crate::run_table::run_rows::{RunEntry, entry_in};
use csv::ByteRecord;
use fraction128::Frac;
use input_texts::table_text::first_rows;
use net_model::Network;
use run_laws::{Run, Step};
use std::alloc::Global;

const MOST_ROWS: usize = 10_000;

// The fault of a row.
fn fault_at(kind: RunKind, row: u32) -> RunFault
    ensures memory { kind ≡ NoMemory → result ≡ out_of_memory }
    ensures other { (kind ≡ NoMemory → ⊥) → (result.kind ≡ kind) × (result.row ≡ row) }
{
    match kind {
        RunKind::NoMemory => RunFault { kind, row: 0 },
        _ => RunFault { kind, row },
    }
}

// How many packets have entered after a step.
fn packets_after(packets: u32, step: &Step) -> u32
    requires { packets < 2 ^ 32 - 1 }
    ensures { result ≡ spec.packets_after packets step.now }
{
    match step {
        Step::Enter { .. } => packets + 1,
        _ => packets,
    }
}

// The fault of a row behind that of the end, with so many before it.
fn behind_the_end(before: usize) -> RunFault
    requires { before < 2 ^ 32 - 1 }
    ensures row { result.row ≡ before + 1 }
    ensures kind { IsBehindEnd before result.kind }
{
    if before >= MOST_ROWS {
        RunFault {
            kind: RunKind::T7,
            row: before as u32 + 1,
        }
    } else {
        RunFault {
            kind: RunKind::T8,
            row: before as u32 + 1,
        }
    }
}

// Adds the step of a row behind so many, or gives the end that it says.
fn add_row(
    net: &Network,
    before: usize,
    row: &ByteRecord,
    packets: &mut u32,
    steps: &mut Vec<Step>,
) -> Result<Option<Frac>, RunKind>
    requires { packets.old < 2 ^ 32 - 1 }
    ensures adds { IfOk result (λ end. MatchOption end
        (AddsStep net.now before packets.old (fields_of row.now) steps.old.items packets.new steps.new.items)
        (SaysEnd before (fields_of row.now) steps.old.items steps.new.items)) }
    ensures wrong { IfErr result (λ kind. (kind ≡ NoMemory) ⊎ IsWrongNext net.now before (fields_of row.now) kind) }
{
    if before >= MOST_ROWS {
        return Err(RunKind::T7);
    }
    match entry_in(net, *packets, row)? {
        RunEntry::Does(step) => {
            *packets = packets_after(*packets, &step);
            steps.push(step)?;
            Ok(None)
        }
        RunEntry::Ends(end) => Ok(Some(end)),
    }
}

// The run that ends with the last of so many rows, or the fault of a row behind the end.
fn ended(steps: Vec<Step>, end: Frac, before: usize, rows: usize) -> Result<Run, RunFault>
    requires { before < 2 ^ 32 - 1 }
    ensures run { IfOk result (λ run. (run.steps ≡ steps.items) × (run.end ≡ end) × (before ≡ rows)) }
    ensures behind { IfErr result (λ e. (e.row ≡ before + 1) × IsBehindEnd before e.kind × (before ≢ rows)) }
{
    if before == rows {
        Ok(Run { steps, end })
    } else {
        Err(behind_the_end(before))
    }
}

/// The recorded run of a network that a text is: rows of steps, and then one of its end; packets are numbered in the
/// order in which they enter, and there are at most 10,000 rows. Refused by the first row that is wrong, and by the
/// first of its faults; else only for want of memory, with row 0. (The format is own choice.)
pub fn read_run(alloc: Global, text: &[u8], net: &Network) -> Result<Run, RunFault>
    ensures ok { IfOk result (IsRunOf net.now (rows_of text.now)) }
    ensures fault { IfErr result (λ e. (e ≡ out_of_memory) ⊎ IsFirstFault net.now text.now e.kind e.row) }
{
    let rows = match first_rows(alloc, text, MOST_ROWS + 1) {
        Ok(rows) => rows,
        Err(_) => return Err(fault_at(RunKind::NoMemory, 0)),
    };
    let mut steps = Vec::new(alloc);
    let mut packets: u32 = 0;
    for (before, row) in rows.iter().enumerate() {
        match add_row(net, before, row, &mut packets, &mut steps) {
            Ok(None) => {}
            Ok(Some(end)) => return ended(steps, end, before + 1, rows.len()),
            Err(kind) => return Err(fault_at(kind, before as u32 + 1)),
        }
    }
    Err(fault_at(RunKind::T8, rows.len() as u32 + 1))
}
