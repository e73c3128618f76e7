//! The servers of a file, by their numbers and by their names.

ghost use Rattle.std.specs.Prelude.{◌≡◌, ◌≤◌, map, length};
ghost use Rattle.net_draft.specs.NameTexts.{texts};
ghost use Rattle.net_draft.specs.Tables.{server_names};
ghost use Rattle.net_draft.specs.Views.{server_text};

use crate::server_draft::ServerDraft;
use indexmap::IndexSet;

/// The servers of a file, at most 64 in its order, and their names in the same order.
#[derive(Drop)]
pub(crate) struct ServerList {
    pub(crate) servers: Vec<ServerDraft>,
    pub(crate) names: IndexSet<String>,
    pub ghost few: { length servers.items ≤ 64 },
    pub ghost named: { texts names ≡ server_names (map server_text servers.items) },
}
