//! Laws of curves: a function that pieces and a tail tell has a curve in normal form.

mod laws;

pub use laws::{
    answer_windows_have_curves, answers_exist, convolutions_exist, curves_exist,
    decided_calls_have_answers, deconvolutions_exist, horizontals_exist, infima_exist,
    least_periods_exist, left_overs_exist, normal_forms_exist, suprema_exist, verticals_exist,
};
