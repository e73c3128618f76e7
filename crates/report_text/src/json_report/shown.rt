//! The numbers of cells as texts.

ghost use Rattle.std.specs.Prelude.{◌≡◌, IfOk};
ghost use Rattle.std.specs.Str.{IsUtf8};
ghost use Rattle.std.specs.String.{string_bytes};
ghost use Rattle.input_texts.specs.plain_text.Numbers.{number_text};
ghost use Rattle.report_text.specs.Laws.{IsPrintable};
ghost use Rattle.report_text.specs.Shown.{shown};

use crate::{ShownValue, push_number};
use fraction128::Ext;
use net_cells::cell_table::Table;
use net_cells::{Cell, Kind};
use rational::Extended;
use std::alloc::{AllocError, Global};

// The text of some bytes of ASCII.
fn text_of(bytes: Vec<u8>) -> String
    requires { IsUtf8 bytes.items }
    ensures { string_bytes result ≡ bytes.items }
{
    match String::from_utf8(bytes) {
        Ok(text) => text,
        Err(_) => unreachable!(),
    }
}

// The parts of a number's fraction fit; it does nothing.
fn is_printable(number: &Ext)
    ensures { IsPrintable number.now }
{
    if let Extended::Fin(fraction) = number {
        let _top = fraction.numerator();
        let _bottom = fraction.denominator();
    }
}

fn number_string(alloc: Global, number: &Ext) -> Result<String, AllocError>
    ensures { IfOk result (λ s. string_bytes s ≡ number_text number.now) }
{
    is_printable(number);
    let mut bytes = Vec::new(alloc);
    push_number(&mut bytes, number)?;
    Ok(text_of(bytes))
}

/// The number of a cell as a text; an empty one where the table has none.
pub(crate) fn shown_string<V: ShownValue, T: Table<V>>(
    alloc: Global,
    table: &T,
    kind: Kind,
    a: u32,
    b: u32,
) -> Result<String, AllocError>
    ensures { IfOk result (λ s. string_bytes s ≡ shown (T.at table.now) kind a b) }
{
    match table.value(Cell { kind, a, b }) {
        Some(value) => match value.number() {
            Some(number) => number_string(alloc, number),
            None => Ok(String::new(alloc)),
        },
        None => Ok(String::new(alloc)),
    }
}
