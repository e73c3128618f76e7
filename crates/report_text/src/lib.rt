//! Texts about a network: the report on its analysis, the words of a cell, and the lines that stand in place of a
//! report. Each call's contract is an equation of its bytes.
#![tactic(auto)]

mod cell_words;
pub mod json_report;
mod laws;
mod lines;
pub mod measure_report;
mod refusal;
mod report;
mod run_found;
mod run_lines;
mod run_report;
mod shown;
mod text;

pub use cell_words::{cell_text, server_name};
pub use laws::{
    equations_give_numbers, equations_give_one_report, equations_give_one_run_report,
    only_infinity_is_unbounded, reports_agree, run_reports_agree, texts_tell_numbers,
    words_tell_cells,
};
pub use refusal::{Refusal, push_spaced, refusal_text};
pub use report::{analysis_text, live_count, push_head};
pub use run_found::RunFound;
pub use run_lines::{push_breach_line, push_breach_words, push_run_line};
pub use run_report::{push_peaks, push_worsts, run_text};
pub use shown::ShownValue;
pub use text::{push_after, push_decimal, push_number, push_text};
