//! Answers of one line.

ghost use Rattle.std.specs.Prelude.{◌≡◌, ◌≢◌, IfOk, map};
ghost use Rattle.std.specs.String.{string_bytes};
ghost use Rattle.input_texts.specs.declared.curve_script.fault.LangKind.TheVariants as lang;
ghost use Rattle.input_texts.specs.declared.table_text.fault.TableKind.TheVariants as tables;
ghost use Rattle.net_draft.specs.Faults.{fault_of};
ghost use Rattle.net_model.specs.declared.fault.NetKind.TheVariants as kinds;
ghost use Rattle.report_text.specs.CellWords.{cell_words, server_name};
ghost use Rattle.report_text.specs.Refusals.{refusal_line};
ghost use Rattle.upp_limits.specs.declared.own_limits.OverLimit.TheVariants as limits;
ghost use Rattle.command_replies.specs.Faults.{fault_reply, script_fault_reply};
ghost use Rattle.command_replies.specs.Replies as replies;
ghost use Rattle.command_replies.specs.View.{code_of, reply_of};

use input_texts::curve_script::{LangFault, LangKind};
use input_texts::table_text::{TableFault, TableKind};
use net_cells::Cell;
use net_model::{NetFault, NetKind, Network};
use replies::{Answer, Status};
use report_text::{Refusal, cell_text, refusal_text, server_name};
use std::alloc::{AllocError, Global};

// The answer with the line of a refusal.
fn refused(alloc: Global, status: Status, refusal: &Refusal) -> Result<Answer, AllocError>
    ensures { IfOk result (λ r. reply_of r ≡ record { status = code_of status; bytes = refusal_line refusal.now }) }
{
    let text = refusal_text(alloc, refusal)?;
    Ok(Answer { status, text })
}

#[tactic(auto, unfolding(report_text::specs::Refusals::refusal_line))]
fn bad_network(alloc: Global, file: &str, fault: NetFault) -> Result<Answer, AllocError>
    ensures { IfOk result (λ r. reply_of r ≡ replies.breaks_rule file.now (fault_of fault)) }
{
    let file = String::from_str(alloc, file)?;
    refused(
        alloc,
        Status::Malformed,
        &Refusal::BadNetwork { file, fault },
    )
}

#[tactic(auto, unfolding(report_text::specs::Refusals::refusal_line))]
fn curve_too_many(alloc: Global, place: String) -> Result<Answer, AllocError>
    ensures { IfOk result (λ r. reply_of r ≡ replies.curve_over limits.TooMany (string_bytes place)) }
{
    refused(alloc, Status::TooMany, &Refusal::CurveTooMany { place })
}

#[tactic(auto, unfolding(report_text::specs::Refusals::refusal_line))]
fn curve_too_wide(alloc: Global, place: String) -> Result<Answer, AllocError>
    ensures { IfOk result (λ r. reply_of r ≡ replies.curve_over limits.TooWide (string_bytes place)) }
{
    refused(alloc, Status::TooWide, &Refusal::CurveTooWide { place })
}

/// The answer on a file that gives no network.
pub fn on_fault(alloc: Global, file: &str, fault: NetFault) -> Result<Answer, AllocError>
    ensures reply { IfOk result (λ r. reply_of r ≡ fault_reply file.now (fault_of fault)) }
    ensures told { IfOk result (λ r. fault.kind ≢ kinds.NoMemory) }
{
    match fault.kind {
        NetKind::NoMemory => Err(AllocError),
        NetKind::CurveTooMany => curve_too_many(alloc, fault.place),
        NetKind::CurveTooWide => curve_too_wide(alloc, fault.place),
        _ => bad_network(alloc, file, fault),
    }
}

/// The answer where a cell has too many pieces.
#[tactic(auto, unfolding(report_text::specs::Refusals::refusal_line))]
pub fn cell_too_many(alloc: Global, net: &Network, cell: Cell) -> Result<Answer, AllocError>
    ensures { IfOk result (λ r. reply_of r ≡ replies.cell_over limits.TooMany (cell_words net.now cell)) }
{
    let cell = cell_text(alloc, net, cell)?;
    refused(alloc, Status::TooMany, &Refusal::CellTooMany { cell })
}

/// The answer where a cell has too wide numbers.
#[tactic(auto, unfolding(report_text::specs::Refusals::refusal_line))]
pub fn cell_too_wide(alloc: Global, net: &Network, cell: Cell) -> Result<Answer, AllocError>
    ensures { IfOk result (λ r. reply_of r ≡ replies.cell_over limits.TooWide (cell_words net.now cell)) }
{
    let cell = cell_text(alloc, net, cell)?;
    refused(alloc, Status::TooWide, &Refusal::CellTooWide { cell })
}

// The name of a server; empty past the last one.
fn names_along(alloc: Global, net: &Network, walk: &[u32]) -> Result<Vec<String>, AllocError>
    ensures { IfOk result (λ names. map string_bytes names.items ≡ map (server_name net.now) walk.now) }
{
    let mut names = Vec::with_capacity(alloc, walk.len())?;
    for number in walk {
        names.push(String::from_str(alloc, server_name(net, *number))?)?;
    }
    Ok(names)
}

/// The answer where flows go round along these servers.
#[tactic(auto, unfolding(report_text::specs::Refusals::refusal_line))]
pub fn goes_round(alloc: Global, net: &Network, walk: &[u32]) -> Result<Answer, AllocError>
    ensures { IfOk result (λ r. reply_of r ≡ replies.goes_round (map (server_name net.now) walk.now)) }
{
    let names = names_along(alloc, net, walk)?;
    refused(alloc, Status::Cycle, &Refusal::Cycle { names })
}

#[tactic(auto, unfolding(report_text::specs::Refusals::refusal_line))]
fn bad_table(alloc: Global, file: &str, fault: TableFault) -> Result<Answer, AllocError>
    ensures { IfOk result (λ r. reply_of r ≡ replies.table_fault_reply file.now fault) }
{
    let file = String::from_str(alloc, file)?;
    refused(alloc, Status::Malformed, &Refusal::BadTable { file, fault })
}

/// The answer on a file that gives no table of rows.
pub fn on_table_fault(alloc: Global, file: &str, fault: TableFault) -> Result<Answer, AllocError>
    ensures reply { IfOk result (λ r. reply_of r ≡ replies.table_fault_reply file.now fault) }
    ensures told { IfOk result (λ r. fault.kind ≢ tables.NoMemory) }
{
    match fault.kind {
        TableKind::NoMemory => Err(AllocError),
        _ => bad_table(alloc, file, fault),
    }
}

/// The answer where a simulation has too wide numbers.
#[tactic(auto, unfolding(report_text::specs::Refusals::refusal_line))]
pub fn sim_too_wide(alloc: Global) -> Result<Answer, AllocError>
    ensures { IfOk result (λ r. reply_of r ≡ replies.too_wide_simulation) }
{
    refused(alloc, Status::TooWide, &Refusal::SimTooWide)
}

#[tactic(auto, unfolding(report_text::specs::Refusals::refusal_line))]
fn bad_script(alloc: Global, file: &str, fault: LangFault) -> Result<Answer, AllocError>
    ensures { IfOk result (λ r. reply_of r ≡ replies.breaks_script_rule file.now fault) }
{
    let file = String::from_str(alloc, file)?;
    refused(
        alloc,
        Status::Malformed,
        &Refusal::BadScript { file, fault },
    )
}

#[tactic(auto, unfolding(report_text::specs::Refusals::refusal_line))]
fn line_too_many(alloc: Global, line: u32) -> Result<Answer, AllocError>
    ensures { IfOk result (λ r. reply_of r ≡ replies.line_over limits.TooMany line) }
{
    refused(alloc, Status::TooMany, &Refusal::ScriptTooMany { line })
}

#[tactic(auto, unfolding(report_text::specs::Refusals::refusal_line))]
fn line_too_wide(alloc: Global, line: u32) -> Result<Answer, AllocError>
    ensures { IfOk result (λ r. reply_of r ≡ replies.line_over limits.TooWide line) }
{
    refused(alloc, Status::TooWide, &Refusal::ScriptTooWide { line })
}

/// The answer on a file that gives no script, or one that has no answers.
pub fn on_script_fault(alloc: Global, file: &str, fault: LangFault) -> Result<Answer, AllocError>
    ensures reply { IfOk result (λ r. reply_of r ≡ script_fault_reply file.now fault) }
    ensures told { IfOk result (λ r. fault.kind ≢ lang.NoMemory) }
{
    match fault.kind {
        LangKind::NoMemory => Err(AllocError),
        LangKind::TooMany => line_too_many(alloc, fault.line),
        LangKind::TooWide => line_too_wide(alloc, fault.line),
        _ => bad_script(alloc, file, fault),
    }
}
