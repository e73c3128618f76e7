//! Names of servers and flows.

ghost use Rattle.std.specs.Prelude.{◌≡◌, ◌≢◌, ◌++◌, ◌∷◌, [], IfOk, IfErr, codes, All, true, not};
ghost use Rattle.std.specs.List.{list_any};
ghost use Rattle.std.specs.Str.{bytes_eq};
ghost use Rattle.toml.specs.View.{view, table_view};
ghost use Rattle.net_model.specs.Names.{IsName};
ghost use Rattle.net_draft.specs.declared.fault.DraftFault.TheVariants.{NoMemory};
ghost use Rattle.net_draft.specs.Faults.{Gives, viewed};
ghost use Rattle.net_draft.specs.Values.{name_in, at_key, required, new_name};
ghost use Rattle.net_draft.specs.NameTexts.{texts};

use crate::fault::DraftFault;
use crate::keys::field;
use crate::places::fault_under;
use crate::values::text_in;
use indexmap::IndexSet;
use net_model::{NetKind, is_name};
use std::alloc::Global;
use toml::{Table, Value};

fn name_in(value: &Value) -> Result<&str, NetKind>
    ensures value { viewed (λ s. s.now) result ≡ name_in (view value.now) }
    ensures range { IfOk result (λ s. IsName s.now) }
{
    let text = text_in(value)?;
    if is_name(text) {
        Ok(text)
    } else {
        Err(NetKind::M6)
    }
}

/// Puts a name last among the names, and says whether it is new.
fn add_name(alloc: Global, names: &mut IndexSet<String>, name: &str) -> Result<bool, DraftFault>
    ensures fails { IfErr result (λ e. e ≡ NoMemory) }
    ensures new { IfOk result (λ is_new. is_new ≡ not (list_any (bytes_eq name.now) (texts names.old))) }
    ensures grown { IfOk result (λ is_new. is_new ≡ true → texts names.new ≡ texts names.old ++ name.now ∷ []) }
{
    let (_number, is_new) = names.insert_full(String::from_str(alloc, name)?)?;
    Ok(is_new)
}

/// The name in a table, which none of these is: it goes last among them.
pub(crate) fn new_name<'a>(
    alloc: Global,
    names: &mut IndexSet<String>,
    table: &'a Table,
    place: &str,
) -> Result<&'a str, DraftFault>
    ensures value { Gives (λ s. s.now) result
        (at_key (codes "name") (required (new_name (texts names.old))) place.now (table_view table.now)) }
    ensures range { IfOk result (λ s. IsName s.now) }
    ensures fresh { IfOk result (λ s. All (λ t. t ≢ s.now) (texts names.old)) }
    ensures grown { IfOk result (λ s. texts names.new ≡ texts names.old ++ s.now ∷ []) }
{
    match field(table, "name") {
        None => Err(fault_under(alloc, NetKind::M2, place, "name")),
        Some(value) => match name_in(value) {
            Ok(name) => {
                if add_name(alloc, names, name)? {
                    Ok(name)
                } else {
                    Err(fault_under(alloc, NetKind::M7, place, "name"))
                }
            }
            Err(kind) => Err(fault_under(alloc, kind, place, "name")),
        },
    }
}
