//! The tree of a file.

ghost use Rattle.std.specs.Prelude.{◌≡◌, IfOk, option_map};
ghost use Rattle.toml.specs.View.{table_view};
ghost use Rattle.net_draft.specs.Drafts.{tree_of};

use std::alloc::{AllocError, Global};
use toml::Table;

/// The root table of a text in TOML 1.1, or none where these bytes are no such text.
pub(crate) fn tree_of(alloc: Global, bytes: &[u8]) -> Result<Option<Table>, AllocError>
    ensures { IfOk result (λ tree. option_map table_view tree ≡ tree_of bytes.now) }
{
    match toml::table_from_slice(alloc, bytes) {
        Ok(root) => Ok(Some(root)),
        Err(fault) => {
            if fault.is_memory() {
                Err(AllocError)
            } else {
                Ok(None)
            }
        }
    }
}
