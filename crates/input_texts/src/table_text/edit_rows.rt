//! Rows of an edit list.

ghost use Rattle.std.specs.Prelude.{◌≡◌, map, true, IfErr, IfOk};
ghost use Rattle.std.specs.String.{string_bytes};
ghost use Rattle.csv.specs.Records.{fields_of};
ghost use Rattle.input_texts.specs.declared.table_text.fault.TableKind.TheVariants.{NoMemory};
ghost use Rattle.input_texts.specs.table_text.Fields as fields;
ghost use Rattle.input_texts.specs.table_text.Paths as paths;
ghost use Rattle.input_texts.specs.table_text.Rows as rows;
ghost use Rattle.input_texts.specs.table_text.EditRows as spec;
ghost use Rattle.input_texts.specs.table_text.EditAnswers.{Tells};

use crate::table_text::edit_words::{EditWord, OneNumber, TwoNumbers, edit_word, field_count};
use crate::table_text::fault::TableKind;
use crate::table_text::fields::{number_in, whole_in};
use crate::table_text::paths::path_in;
use crate::table_text::rows::{is_plain, text_at};
use csv::ByteRecord;
use fraction128::Frac;
use net_model::{Edit, PathEntry};
use std::alloc::{AllocError, Global};

fn name_at(alloc: Global, row: &ByteRecord) -> Result<String, AllocError>
    requires { rows.is_plain (fields_of row.now) ≡ true }
    ensures { IfOk result (λ s. string_bytes s ≡ rows.field (fields_of row.now) 1) }
{
    String::from_str(alloc, text_at(row, 1))
}

fn number_at(row: &ByteRecord, place: usize) -> Result<Frac, TableKind>
    requires { rows.is_plain (fields_of row.now) ≡ true }
    ensures { spec.Finds (λ x. x) result (fields.number_in (rows.field (fields_of row.now) place)) }
{
    match number_in(text_at(row, place)) {
        Some(number) => Ok(number),
        None => Err(TableKind::T4),
    }
}

fn whole_at(row: &ByteRecord, place: usize) -> Result<i64, TableKind>
    requires { rows.is_plain (fields_of row.now) ≡ true }
    ensures { spec.Finds (λ x. x) result (fields.whole_in (rows.field (fields_of row.now) place)) }
{
    match whole_in(text_at(row, place)) {
        Some(number) => Ok(number),
        None => Err(TableKind::T4),
    }
}

fn path_at(alloc: Global, row: &ByteRecord, place: usize) -> Result<Vec<PathEntry>, TableKind>
    requires { rows.is_plain (fields_of row.now) ≡ true }
    ensures { spec.Finds (λ v. map paths.entry_view v.items) result
        (paths.path_in (rows.field (fields_of row.now) place)) }
{
    path_in(alloc, text_at(row, place).as_bytes())
}

fn one_in(alloc: Global, word: OneNumber, row: &ByteRecord) -> Result<Edit, TableKind>
    requires { rows.is_plain (fields_of row.now) ≡ true }
    ensures { spec.Finds spec.edit_view result (spec.one_of word (fields_of row.now)) }
{
    let number = number_at(row, 2)?;
    let name = name_at(alloc, row)?;
    match word {
        OneNumber::Rate => Ok(Edit::Rate(name, number)),
        OneNumber::Latency => Ok(Edit::Latency(name, number)),
        OneNumber::Link => Ok(Edit::Link(name, number)),
    }
}

fn two_in(alloc: Global, word: TwoNumbers, row: &ByteRecord) -> Result<Edit, TableKind>
    requires { rows.is_plain (fields_of row.now) ≡ true }
    ensures { spec.Finds spec.edit_view result (spec.two_of word (fields_of row.now)) }
{
    let first = number_at(row, 2)?;
    let second = number_at(row, 3)?;
    let name = name_at(alloc, row)?;
    match word {
        TwoNumbers::Bucket => Ok(Edit::Bucket(name, first, second)),
        TwoNumbers::Stair => Ok(Edit::Stair(name, first, second)),
    }
}

fn quantum_in(alloc: Global, row: &ByteRecord) -> Result<Edit, TableKind>
    requires { rows.is_plain (fields_of row.now) ≡ true }
    ensures { spec.Finds spec.edit_view result (spec.quantum_of (fields_of row.now)) }
{
    let queue = whole_at(row, 2)?;
    let bits = whole_at(row, 3)?;
    Ok(Edit::Quantum(name_at(alloc, row)?, queue, bits))
}

fn packet_in(alloc: Global, row: &ByteRecord) -> Result<Edit, TableKind>
    requires { rows.is_plain (fields_of row.now) ≡ true }
    ensures { spec.Finds spec.edit_view result (spec.packet_of (fields_of row.now)) }
{
    let bits = whole_at(row, 2)?;
    Ok(Edit::Packet(name_at(alloc, row)?, bits))
}

fn route_in(alloc: Global, row: &ByteRecord) -> Result<Edit, TableKind>
    requires { rows.is_plain (fields_of row.now) ≡ true }
    ensures { spec.Finds spec.edit_view result (spec.route_of (fields_of row.now)) }
{
    let path = path_at(alloc, row, 2)?;
    Ok(Edit::Route(name_at(alloc, row)?, path))
}

fn add_in(alloc: Global, row: &ByteRecord) -> Result<Edit, TableKind>
    requires { rows.is_plain (fields_of row.now) ≡ true }
    ensures { spec.Finds spec.edit_view result (spec.add_of (fields_of row.now)) }
{
    let bits = whole_at(row, 2)?;
    let burst = number_at(row, 3)?;
    let rate = number_at(row, 4)?;
    let path = path_at(alloc, row, 5)?;
    Ok(Edit::Add(name_at(alloc, row)?, bits, burst, rate, path))
}

fn edit_with(alloc: Global, word: EditWord, row: &ByteRecord) -> Result<Edit, TableKind>
    requires { rows.is_plain (fields_of row.now) ≡ true }
    ensures { spec.Finds spec.edit_view result (spec.edit_with word (fields_of row.now)) }
{
    match word {
        EditWord::One(word) => one_in(alloc, word, row),
        EditWord::Two(word) => two_in(alloc, word, row),
        EditWord::Quantum => quantum_in(alloc, row),
        EditWord::Packet => packet_in(alloc, row),
        EditWord::Route => route_in(alloc, row),
        EditWord::Add => add_in(alloc, row),
        EditWord::Drop => Ok(Edit::Drop(name_at(alloc, row)?)),
        EditWord::Undo => Ok(Edit::Undo),
    }
}

/// The edit that a row asks for, or what is wrong with it by itself.
#[tactic(auto, unfolding(crate::specs::table_text::EditRows::edit_row))]
pub(crate) fn edit_in(alloc: Global, row: &ByteRecord) -> Result<Edit, TableKind>
    ensures { Tells spec.edit_view result (spec.edit_row (fields_of row.now)) }
{
    if !is_plain(row) {
        return Err(TableKind::T1);
    }
    let Some(word) = edit_word(text_at(row, 0)) else {
        return Err(TableKind::T2);
    };
    if row.len() != field_count(word) {
        return Err(TableKind::T3);
    }
    edit_with(alloc, word, row)
}
