//! Whether two networks make a queue's service of the same.

ghost use Rattle.std.specs.Prelude.{◌≡◌, ◌<◌, Some, slice_get};
ghost use Rattle.residuals.specs.left.Left.{IsFit};
ghost use Rattle.net_model.specs.Accepted.{IsServer};
ghost use Rattle.net_model.specs.Views.{server_of};
ghost use Rattle.net_cells.specs.declared.cell.Kind.TheVariants.{QueueService};
ghost use Rattle.net_cells.specs.Left.{left_by};
ghost use Rattle.net_cells.specs.Numbered as at;
ghost use Rattle.cell_rules.specs.Rules.{TellsSame, TellsFormula, HaveSameFlows};

use crate::lists::{same_longest, same_longest_each};
use crate::reads::same_curve;
use cell_numbers::Pick;
use net_cells::{Leaving, leaves, server};
use net_model::{Network, Server};

fn same_quanta(quanta: &[u64], others: &[u64]) -> bool
    ensures { TellsSame quanta.now others.now result }
{
    quanta == others
}

// By what a server leaves its queues in the one network and in the other.
fn same_left(
    told: bool,
    old: &Network,
    new: &Network,
    place: (u32, u32),
    f: Leaving<'_>,
    g: Leaving<'_>,
) -> bool
    requires flows { HaveSameFlows told old.now new.now }
    requires fit { IsFit (left_by old.now place.0 place.1 f) }
    ensures { TellsSame (left_by old.now place.0 place.1 f.entry) (left_by new.now place.0 place.1 g.entry) result }
{
    match f {
        Leaving::All => match g {
            Leaving::All => true,
            Leaving::Above => false,
            Leaving::Share { .. } => false,
        },
        Leaving::Above => match g {
            Leaving::All => false,
            Leaving::Above => same_longest(told, old, new, place.0, Pick::AfterQueue(place.1)),
            Leaving::Share { .. } => false,
        },
        Leaving::Share { quanta } => match g {
            Leaving::All => false,
            Leaving::Above => false,
            Leaving::Share { quanta: others } => {
                same_quanta(quanta, others)
                    && same_longest_each(told, old, new, place.0, quanta.len() as u32)
            }
        },
    }
}

// By a server of the one network and one of the other, of the same number.
fn same_service(
    told: bool,
    old: &Network,
    new: &Network,
    place: (u32, u32),
    f: &Server,
    g: &Server,
) -> bool
    requires flows { HaveSameFlows told old.now new.now }
    requires old { slice_get old.now.servers place.0 ≡ Some (server_of f.now) }
    requires new { slice_get new.now.servers place.0 ≡ Some (server_of g.now) }
    requires kept { IsServer (server_of f.now) }
    requires queue { place.1 < at.queues old.now place.0 }
    ensures { TellsFormula old.now new.now QueueService place.0 place.1 result }
{
    same_curve(&f.service, &g.service)
        && same_left(
            told,
            old,
            new,
            place,
            leaves(&f.discipline),
            leaves(&g.discipline),
        )
}

/// Whether two networks make the service of a queue of the same; it is one of both.
pub(crate) fn same_queue_service(
    told: bool,
    old: &Network,
    new: &Network,
    number: u32,
    queue: u32,
) -> bool
    requires flows { HaveSameFlows told old.now new.now }
    requires old { queue < at.queues old.now number }
    requires new { queue < at.queues new.now number }
    ensures { TellsFormula old.now new.now QueueService number queue result }
{
    match server(old, number) {
        Some(f) => match server(new, number) {
            Some(g) => same_service(told, old, new, (number, queue), f, g),
            None => unreachable!(),
        },
        None => unreachable!(),
    }
}
