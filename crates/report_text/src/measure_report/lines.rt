//! The lines of the report.

ghost use Rattle.std.specs.Prelude.{◌≡◌, ◌++◌, codes, OnOk};
ghost use Rattle.std.specs.Fmt.{decimal};
ghost use Rattle.fraction128.specs.Text.{text_of};
ghost use Rattle.input_texts.specs.plain_text.Numbers.{number_text};
ghost use Rattle.report_text.specs.measure_report.MeasureReport.{head_line, step_line, burst_line};

use crate::{push_after, push_decimal, push_text};
use fraction128::{Ext, Frac};
use rational::Extended;
use std::alloc::AllocError;
use upp_curve::affine_segment::Piece;

#[tactic(auto, unfolding(crate::specs::measure_report::MeasureReport::head_line))]
pub(crate) fn push_head_line(
    into: &mut Vec<u8>,
    name: &str,
    packets: usize,
) -> Result<(), AllocError>
    ensures { OnOk result (into.new.items ≡ into.old.items ++ head_line name.now packets) }
{
    push_after(into, "flow ", name)?;
    push_text(into, " packets ")?;
    push_decimal(into, packets)?;
    push_text(into, "\n")
}

fn push_level(into: &mut Vec<u8>, level: &Ext) -> Result<(), AllocError>
    ensures { OnOk result (into.new.items ≡ into.old.items ++ number_text level.now) }
{
    match level {
        Extended::Fin(bits) => bits.print(into),
        Extended::Inf => push_text(into, "unbounded"),
    }
}

// Words, and a number after them.
fn push_fraction(into: &mut Vec<u8>, words: &str, number: &Frac) -> Result<(), AllocError>
    ensures { OnOk result (into.new.items ≡ into.old.items ++ (words.now ++ text_of number.now)) }
{
    push_text(into, words)?;
    number.print(into)
}

#[tactic(auto, unfolding(crate::specs::measure_report::MeasureReport::step_line))]
pub(crate) fn push_step_line(into: &mut Vec<u8>, piece: &Piece) -> Result<(), AllocError>
    ensures { OnOk result (into.new.items ≡ into.old.items ++ step_line piece.now) }
{
    push_fraction(into, "step ", &piece.x)?;
    push_text(into, " ")?;
    push_level(into, &piece.at)?;
    push_text(into, "\n")
}

#[tactic(auto, unfolding(crate::specs::measure_report::MeasureReport::burst_line))]
pub(crate) fn push_burst_line(
    into: &mut Vec<u8>,
    burst: &Frac,
    rate: &Frac,
) -> Result<(), AllocError>
    ensures { OnOk result (into.new.items ≡ into.old.items ++ burst_line burst.now rate.now) }
{
    push_fraction(into, "burst ", burst)?;
    push_fraction(into, " rate ", rate)?;
    push_text(into, "\n")
}
