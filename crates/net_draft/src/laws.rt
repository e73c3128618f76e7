//! What else is known of drafts.

ghost use Rattle.toml.specs.View.{table_view};
ghost use Rattle.net_draft.specs.FaultKinds.{FaultsAreOfTables};
ghost use Rattle.net_draft.specs.KeyOrder.{KeysAscend, UnknownKeyIsLeast};
ghost use Rattle.net_draft.specs.Laws.{RefusalsAreCauses, MadeMayStand};

use toml::Table;

/// The tests of the text of a curve find a cause exactly where the curves of a file are refused for it.
pub fn refusals_are_causes()
    ensures { RefusalsAreCauses }
{}

/// What was made of a server's text may be a server's curve and is of its kind, and what was made of a flow's text may
/// be a flow's: a network can be made of a draft whose curves are within their limits, without a further test.
pub fn made_may_stand()
    ensures { MadeMayStand }
{}

/// The first fault of a file is one of its tables, M1 to M12: no limit of a curve, and no want of memory.
pub fn faults_are_of_tables()
    ensures { FaultsAreOfTables }
{}

/// The unknown key that a fault names is the least by bytes of the unknown keys of its table, whose keys ascend.
pub fn unknown_key_is_least()
    ensures { UnknownKeyIsLeast }
{}

/// The keys of a table ascend by their bytes.
pub fn keys_ascend(table: &Table)
    ensures { KeysAscend (table_view table.now) }
{
    let _members = table.iter();
}
