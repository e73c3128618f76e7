//! The lines that stand in place of a report.

ghost use Rattle.std.specs.Prelude.{◌≡◌, ◌++◌, ◌∷◌, [], map, IfOk, OnOk};
ghost use Rattle.std.specs.String.{string_bytes};
ghost use Rattle.report_text.specs.Faults as faults;
ghost use Rattle.std.specs.Fmt.{decimal};
ghost use Rattle.report_text.specs.Refusals.{spaced, reason, refusal_line};

use crate::text::{push_after, push_decimal, push_text};
use input_texts::curve_script::{LangFault, LangKind};
use input_texts::table_text::{TableFault, TableKind};
use net_model::{CurveRefusal, NetFault, NetKind};
use std::alloc::{AllocError, Global};

/// Why there is no report.
#[derive(Drop)]
pub enum Refusal {
    /// A file breaks a rule of networks. The fault is one of the rules', and neither a curve over a limit nor want of
    /// memory.
    BadNetwork { file: String, fault: NetFault },
    /// The flows go round: the names of the servers of a cycle, in order.
    Cycle { names: Vec<String> },
    /// A curve of the file has too many pieces: its place in the file.
    CurveTooMany { place: String },
    /// A curve of the file has too wide numbers: its place in the file.
    CurveTooWide { place: String },
    /// A cell has an operator that makes too many pieces: the cell in words.
    CellTooMany { cell: String },
    /// A cell has an operator with too wide numbers: the cell in words.
    CellTooWide { cell: String },
    /// A simulation has too wide numbers.
    SimTooWide,
    /// A file breaks a rule of tables. The fault is one of the rules', and not want of memory.
    BadTable { file: String, fault: TableFault },
    /// A file breaks a rule of scripts. The fault is one of the rules', and neither an operator over a limit nor want of
    /// memory.
    BadScript { file: String, fault: LangFault },
    /// A line of a script has an operator or a curve of too many pieces: its number, from 1.
    ScriptTooMany { line: u32 },
    /// A line of a script has an operator, a curve or a value with too wide numbers: its number, from 1.
    ScriptTooWide { line: u32 },
}

fn curve_word(why: CurveRefusal) -> &'static str
    ensures { result.now ≡ faults.curve_word why }
{
    match why {
        CurveRefusal::Negative => "negative",
        CurveRefusal::ZeroPeriod => "zero-period",
        CurveRefusal::NotRising => "not-rising",
        CurveRefusal::NotContinuous => "not-continuous",
        CurveRefusal::NotZeroAtStart => "not-zero-at-start",
    }
}

fn rule_word(kind: NetKind) -> &'static str
    ensures { result.now ≡ faults.rule_word kind }
{
    match kind {
        NetKind::M1 => "M1",
        NetKind::M2 => "M2",
        NetKind::M3 => "M3",
        NetKind::M4 => "M4",
        NetKind::M5 => "M5",
        NetKind::M6 => "M6",
        NetKind::M7 => "M7",
        NetKind::M8 => "M8",
        NetKind::M9(_) => "M9",
        NetKind::M10 => "M10",
        NetKind::M11 => "M11",
        NetKind::M12 => "M12",
        NetKind::CurveTooMany | NetKind::CurveTooWide | NetKind::NoMemory => "",
    }
}

fn table_word(kind: TableKind) -> &'static str
    ensures { result.now ≡ faults.table_word kind }
{
    match kind {
        TableKind::T1 => "T1",
        TableKind::T2 => "T2",
        TableKind::T3 => "T3",
        TableKind::T4 => "T4",
        TableKind::T5 => "T5",
        TableKind::T6 => "T6",
        TableKind::T7 => "T7",
        TableKind::NoMemory => "",
    }
}

fn script_word(kind: LangKind) -> &'static str
    ensures { result.now ≡ faults.script_word kind }
{
    match kind {
        LangKind::C1 => "C1",
        LangKind::C2 => "C2",
        LangKind::C3 => "C3",
        LangKind::C4 => "C4",
        LangKind::C5 => "C5",
        LangKind::C6 => "C6",
        LangKind::C7 => "C7",
        LangKind::C8 => "C8",
        LangKind::TooMany | LangKind::TooWide | LangKind::NoMemory => "",
    }
}

/// Appends a word, after a space.
pub fn push_spaced(into: &mut Vec<u8>, word: &str) -> Result<(), AllocError>
    ensures { OnOk result (into.new.items ≡ into.old.items ++ spaced (word.now ∷ [])) }
{
    push_text(into, " ")?;
    push_text(into, word)
}

// Where a rule is broken, and of a curve, why.
fn push_place(into: &mut Vec<u8>, kind: NetKind, place: &str) -> Result<(), AllocError>
    ensures { OnOk result (into.new.items ≡ into.old.items ++ faults.place_text kind place.now) }
{
    match kind {
        NetKind::M1 => Ok(()),
        NetKind::M9(why) => {
            push_spaced(into, place)?;
            push_spaced(into, curve_word(why))
        }
        _ => push_spaced(into, place),
    }
}

fn push_fault(into: &mut Vec<u8>, fault: &NetFault) -> Result<(), AllocError>
    ensures { OnOk result (into.new.items ≡
        into.old.items ++ faults.fault_text fault.now.kind (string_bytes fault.now.place)) }
{
    push_text(into, rule_word(fault.kind))?;
    push_place(into, fault.kind, &fault.place)
}

// Words, and a number after them.
fn push_numbered(into: &mut Vec<u8>, words: &str, number: u32) -> Result<(), AllocError>
    ensures { OnOk result (into.new.items ≡ into.old.items ++ (words.now ++ decimal number)) }
{
    push_text(into, words)?;
    push_decimal(into, number as usize)
}

fn push_table_fault(into: &mut Vec<u8>, fault: &TableFault) -> Result<(), AllocError>
    ensures { OnOk result (into.new.items ≡ into.old.items ++ faults.table_fault_text fault.now) }
{
    push_text(into, table_word(fault.kind))?;
    push_numbered(into, " row ", fault.row)
}

fn push_script_fault(into: &mut Vec<u8>, fault: &LangFault) -> Result<(), AllocError>
    ensures { OnOk result (into.new.items ≡ into.old.items ++ faults.script_fault_text fault.now) }
{
    push_text(into, script_word(fault.kind))?;
    push_numbered(into, " line ", fault.line)
}

fn push_names(into: &mut Vec<u8>, names: &[String]) -> Result<(), AllocError>
    ensures { OnOk result (into.new.items ≡ into.old.items ++ spaced (map string_bytes names.now)) }
{
    for name in names {
        push_spaced(into, name)?;
    }
    Ok(())
}

fn push_reason(into: &mut Vec<u8>, refusal: &Refusal) -> Result<(), AllocError>
    ensures { OnOk result (into.new.items ≡ into.old.items ++ reason refusal.now) }
{
    match refusal {
        Refusal::BadNetwork { file, fault } => {
            push_after(into, file, ": ")?;
            push_fault(into, fault)
        }
        Refusal::Cycle { names } => {
            push_text(into, "cycle")?;
            push_names(into, names)
        }
        Refusal::CurveTooMany { place } => push_after(into, "too many: curve ", place),
        Refusal::CurveTooWide { place } => push_after(into, "too wide: curve ", place),
        Refusal::CellTooMany { cell } => push_after(into, "too many: ", cell),
        Refusal::CellTooWide { cell } => push_after(into, "too wide: ", cell),
        Refusal::SimTooWide => push_text(into, "too wide: simulation"),
        Refusal::BadTable { file, fault } => {
            push_after(into, file, ": ")?;
            push_table_fault(into, fault)
        }
        Refusal::BadScript { file, fault } => {
            push_after(into, file, ": ")?;
            push_script_fault(into, fault)
        }
        Refusal::ScriptTooMany { line } => push_numbered(into, "too many: line ", *line),
        Refusal::ScriptTooWide { line } => push_numbered(into, "too wide: line ", *line),
    }
}

/// The line of a refusal, with the name of the program before it and a newline at its end. Refused only for want of
/// memory.
#[tactic(auto, unfolding(crate::specs::Refusals::refusal_line))]
pub fn refusal_text(alloc: Global, refusal: &Refusal) -> Result<Vec<u8>, AllocError>
    ensures { IfOk result (λ text. text.items ≡ refusal_line refusal.now) }
{
    let mut text = Vec::new(alloc);
    push_text(&mut text, "netcalc: ")?;
    push_reason(&mut text, refusal)?;
    push_text(&mut text, "\n")?;
    Ok(text)
}
