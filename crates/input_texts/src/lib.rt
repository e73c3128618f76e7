//! The texts that a call reads beside a network's file: plain numbers, tables of rows, and scripts of curves.
#![tactic(auto)]

pub mod curve_script;
pub mod plain_text;
pub mod table_text;
