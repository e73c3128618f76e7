//! Edit lists from their text.

ghost use Rattle.std.specs.Prelude.{◌≡◌, ◌⊎◌, ◌<◌, ◌++◌, ◌∷◌, [], Ok, map, IfOk, IfErr, OnOk};
ghost use Rattle.csv.specs.Records.{fields_of};
ghost use Rattle.input_texts.specs.declared.table_text.fault.TableKind.TheVariants.{NoMemory};
ghost use Rattle.input_texts.specs.table_text.Rows.{rows_of};
ghost use Rattle.input_texts.specs.table_text.EditRows.{edit_view};
ghost use Rattle.input_texts.specs.table_text.EditLists.{IsEditWrong, AreEditsOf, IsFirstEditFault};
ghost use Rattle.input_texts.specs.table_text.EditAnswers.{AddsEdit};
ghost use Rattle.input_texts.specs.table_text.Traces.{out_of_memory};

use crate::table_text::edit_rows::edit_in;
use crate::table_text::fault::{TableFault, TableKind, fault_at};
use crate::table_text::rows::first_rows;
use csv::ByteRecord;
use net_model::Edit;
use std::alloc::Global;

const MOST_EDITS: usize = 1_000;

// Puts the edit of a row behind those before it.
fn add_edit(
    alloc: Global,
    before: usize,
    row: &ByteRecord,
    edits: &mut Vec<Edit>,
) -> Result<(), TableKind>
    ensures adds { OnOk result
        (AddsEdit before (fields_of row.now) (map edit_view edits.old.items) (map edit_view edits.new.items)) }
    ensures wrong { IfErr result (λ kind. (kind ≡ NoMemory) ⊎ IsEditWrong before (fields_of row.now) kind) }
{
    if before >= MOST_EDITS {
        return Err(TableKind::T7);
    }
    let edit = edit_in(alloc, row)?;
    edits.push(edit)?;
    Ok(())
}

/// The edits that a text asks for, in its order: a row is `rate,SERVER,R`, `latency,SERVER,T`, `link,SERVER,X`,
/// `quantum,SERVER,QUEUE,Q`, `bucket,FLOW,B,R`, `stair,FLOW,P,J`, `packet,FLOW,L`, `route,FLOW,PATH`,
/// `add,FLOW,L,B,R,PATH`, `drop,FLOW` or `undo`; QUEUE, Q and L are whole numbers of 64 bits, PATH is entries with
/// single spaces between them, and the others are numbers of any sign; there are at most 1,000 rows. Refused by the
/// first row that is wrong, and by the first of its faults; else only for want of memory, with row 0. (The format is
/// own choice.)
pub fn read_edits(alloc: Global, text: &[u8]) -> Result<Vec<Edit>, TableFault>
    ensures ok { IfOk result (λ v. AreEditsOf (rows_of text.now) (map edit_view v.items)) }
    ensures fault { IfErr result (λ e. (e ≡ out_of_memory) ⊎ IsFirstEditFault text.now e.kind e.row) }
{
    let rows = match first_rows(alloc, text, MOST_EDITS + 1) {
        Ok(rows) => rows,
        Err(kind) => return Err(fault_at(kind, 0)),
    };
    let mut edits = Vec::new(alloc);
    for (before, row) in rows.iter().enumerate() {
        match add_edit(alloc, before, row, &mut edits) {
            Ok(()) => {}
            Err(kind) => return Err(fault_at(kind, before as u32 + 1)),
        }
    }
    Ok(edits)
}
