//! Names and their curves.

ghost use Rattle.std.specs.Prelude.{◌≡◌, map, IfOk, OnOk, ◌++◌, ◌∷◌, [], option_map, is_some, IsTrue, string_bytes};
ghost use Rattle.curve_lang.specs.Found.{curve_named, NameFinds};
ghost use Rattle.curve_lang.specs.Views.{let_view, found};

use input_texts::curve_script::LangKind;
use std::alloc::{AllocError, Global};
use std::rc::Rc;
use upp_curve::Curve;

/// A name that was given, with its curve.
#[derive(Drop)]
pub(crate) struct Named {
    name: String,
    curve: Rc<Curve>,
}

// The curve of a name, where it was given.
fn curve_named<'a>(lets: &'a [Named], word: &str) -> Option<&'a Rc<Curve>>
    ensures { option_map (λ c. c.now.value) result ≡ curve_named (map let_view lets.now) word.now }
{
    for l in lets {
        if l.name.as_bytes() == word.as_bytes() {
            return Some(&l.curve);
        }
    }
    None
}

/// Whether a name was given.
pub(crate) fn is_given(lets: &[Named], word: &str) -> bool
    ensures { result ≡ is_some (curve_named (map let_view lets.now) word.now) }
{
    curve_named(lets, word).is_some()
}

/// The curve that a name was given for, shared once more.
pub(crate) fn named_curve(lets: &[Named], word: &str) -> Result<Rc<Curve>, LangKind>
    ensures { NameFinds (curve_named (map let_view lets.now) word.now) (found result) }
{
    match curve_named(lets, word) {
        None => Err(LangKind::C6),
        Some(curve) => match curve.clone() {
            Ok(handle) => Ok(handle),
            Err(_) => Err(LangKind::NoMemory),
        },
    }
}

/// Gives a name to a curve.
pub(crate) fn give_name(
    alloc: Global,
    lets: &mut Vec<Named>,
    word: &str,
    curve: Rc<Curve>,
) -> Result<(), AllocError>
    ensures { OnOk result
        (map let_view lets.new.items ≡ map let_view lets.old.items
        ++ record { name = word.now; curve = curve.value } ∷ []) }
{
    let name = String::from_str(alloc, word)?;
    lets.push(Named { name, curve })?;
    Ok(())
}
