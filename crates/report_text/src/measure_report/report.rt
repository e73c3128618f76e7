//! The report on a measured curve.

ghost use Rattle.std.specs.Prelude.{◌≡◌, ◌++◌, IfOk, OnOk};
ghost use Rattle.std.specs.List.{flat_map};
ghost use Rattle.report_text.specs.measure_report.MeasureReport.{step_line, measure_report_of};

use crate::measure_report::lines::{push_burst_line, push_head_line, push_step_line};
use fraction128::Frac;
use std::alloc::{AllocError, Global};
use upp_curve::Curve;
use upp_curve::affine_segment::Piece;

fn push_steps(into: &mut Vec<u8>, pieces: &[Piece]) -> Result<(), AllocError>
    ensures { OnOk result (into.new.items ≡ into.old.items ++ flat_map step_line pieces.now) }
{
    for piece in pieces {
        push_step_line(into, piece)?;
    }
    Ok(())
}

/// The report on the least arrival curve of the packets of a flow: its name and how many packets it has, each start
/// of a piece with the curve's value there, and the burst of the least bucket for a rate. Of a least arrival curve
/// these are the time 0 and each later time at which it rises. Refused only for want of memory.
#[tactic(auto, unfolding(crate::specs::measure_report::MeasureReport::measure_report_of))]
pub fn measure_text(
    alloc: Global,
    name: &str,
    packets: usize,
    curve: &Curve,
    burst: Frac,
    rate: Frac,
) -> Result<Vec<u8>, AllocError>
    ensures { IfOk result (λ text. text.items ≡ measure_report_of name.now packets curve.now.pieces burst rate) }
{
    let mut text = Vec::new(alloc);
    push_head_line(&mut text, name, packets)?;
    push_steps(&mut text, curve.pieces())?;
    push_burst_line(&mut text, &burst, &rate)?;
    Ok(text)
}
