//! The line of the verdict.

ghost use Rattle.std.specs.Prelude.{◌≡◌, ◌++◌, codes, OnOk};
ghost use Rattle.run_check.specs.broken_laws.FirstBroken.{number_of};
ghost use Rattle.run_check.specs.check_report.CheckReport as spec;

use crate::broken_laws::Law;
use net_model::{Breach, Network};
use report_text::{push_breach_words, push_decimal, push_text};
use std::alloc::AllocError;

// The number of a law.
fn law_number(law: Law) -> usize
    ensures { result ≡ number_of law }
{
    match law {
        Law::L1 => 1,
        Law::L2 => 2,
        Law::L3 => 3,
        Law::L4 => 4,
        Law::L5 => 5,
        Law::L6 => 6,
        Law::L7 => 7,
        Law::L8 => 8,
        Law::L9 => 9,
    }
}

fn push_law(into: &mut Vec<u8>, law: Law) -> Result<(), AllocError>
    ensures { OnOk result (into.new.items ≡ into.old.items ++ spec.law_words law) }
{
    push_text(into, "L")?;
    push_decimal(into, law_number(law))
}

fn push_verdict_words(
    into: &mut Vec<u8>,
    net: &Network,
    breach: &Option<Breach>,
) -> Result<(), AllocError>
    ensures { OnOk result (into.new.items ≡ into.old.items ++ spec.verdict_words net.now breach.now) }
{
    match breach {
        None => push_text(into, "admissible"),
        Some(_) => {
            push_text(into, "breach ")?;
            push_breach_words(into, net, breach)
        }
    }
}

/// Appends the verdict on a lawful run: that it is admissible, or what it breaks first.
#[tactic(auto, unfolding(crate::specs::check_report::CheckReport::verdict_line))]
pub(crate) fn push_verdict(
    into: &mut Vec<u8>,
    net: &Network,
    breach: &Option<Breach>,
) -> Result<(), AllocError>
    ensures { OnOk result (into.new.items ≡ into.old.items ++ spec.verdict_line net.now breach.now) }
{
    push_text(into, "verdict ")?;
    push_verdict_words(into, net, breach)?;
    push_text(into, "\n")
}

// The law with which a line ends.
fn push_last_law(into: &mut Vec<u8>, law: Law) -> Result<(), AllocError>
    ensures { OnOk result (into.new.items ≡ into.old.items ++ (codes " " ++ spec.law_words law ++ codes "\n")) }
{
    push_text(into, " ")?;
    push_law(into, law)?;
    push_text(into, "\n")
}

/// Appends the verdict on a run that breaks a law first at this row.
#[tactic(auto, unfolding(crate::specs::check_report::CheckReport::unlawful_line))]
pub(crate) fn push_unlawful(into: &mut Vec<u8>, row: u32, law: Law) -> Result<(), AllocError>
    ensures { OnOk result (into.new.items ≡ into.old.items ++ spec.unlawful_line row law) }
{
    push_text(into, "verdict unlawful row ")?;
    push_decimal(into, row as usize)?;
    push_last_law(into, law)
}
