//! The answer on a document.

ghost use Rattle.std.specs.Prelude.{◌≡◌, All, IfOk};
ghost use Rattle.std.specs.String.{string_bytes};
ghost use Rattle.bounds_report.specs.Ranges.{HasDeadlineInRange};
ghost use Rattle.document_tables.specs.Documents.{IsBranchOf, document_view};
ghost use Rattle.tree_network.specs.Networks.{IsNetwork};
ghost use Rattle.bounds_command.specs.OnTables.{IsReplyOnDocument};
ghost use Rattle.bounds_command.specs.Reports.{status_with};
ghost use Rattle.bounds_command.specs.View.{code_of, reply_of, text_in};

use crate::form::Form;
use crate::refusals::goes_round;
use crate::rows::{report_of, some_missed};
use bounds_report::{Report, report_json, report_lines};
use document_tables::Document;
use replies::{Answer, Status};
use std::alloc::{AllocError, Global};
use tree_bounds::bounds_of;
use tree_network::Fault;

// The text of a report in a form.
fn text_in(alloc: Global, form: Form, report: &Report) -> Result<String, AllocError>
    requires { All (λ row. HasDeadlineInRange row.deadline) report.now.branches.items }
    ensures { IfOk result (λ text. string_bytes text ≡ text_in form report.now) }
{
    match form {
        Form::Lines => report_lines(alloc, report),
        Form::Json => report_json(alloc, report),
    }
}

// The status with a report.
fn status_of(report: &Report) -> Status
    ensures { code_of result ≡ status_with report.now }
{
    if some_missed(&report.branches) {
        Status::Breach
    } else {
        Status::Done
    }
}

// The answer with a report.
fn reported(alloc: Global, form: Form, report: &Report) -> Result<Answer, AllocError>
    requires { All (λ row. HasDeadlineInRange row.deadline) report.now.branches.items }
    ensures { IfOk result (λ r.
        reply_of r ≡ record { status = status_with report.now; bytes = text_in form report.now }) }
{
    let text = text_in(alloc, form, report)?;
    Ok(Answer {
        status: status_of(report),
        text: text.into_bytes(),
    })
}

/// The answer on a document: the report on the bounds of its network, or a ring of its ports.
pub(crate) fn on_document(
    alloc: Global,
    document: &Document,
    form: Form,
) -> Result<Answer, AllocError>
    requires network { IsNetwork document.now.network }
    requires ends { All (IsBranchOf document.now.network) document.now.branches.items }
    ensures { IfOk result (λ r. IsReplyOnDocument (document_view document.now) document.now.network form (reply_of r)) }
{
    match bounds_of(alloc, &document.network) {
        Ok(table) => {
            let report = report_of(alloc, document, &table)?;
            // The text is as large, and then takes its room.
            drop(table);
            reported(alloc, form, &report)
        }
        Err(Fault::Cycle(ports)) => goes_round(alloc, &document.port_names, &ports),
        Err(Fault::NoMemory) => Err(AllocError),
    }
}
