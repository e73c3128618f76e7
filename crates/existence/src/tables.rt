//! Laws of networks: a table of the values of all cells exists, or one cell is the first over a limit.

mod laws;

pub use laws::{
    curve_sums_exist, formulas_have_answers, networks_have_tables, number_sums_exist,
    services_exist, tables_exist, tables_or_limits,
};
