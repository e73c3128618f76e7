//! What a server leaves each of its queues, by its discipline.

ghost use Rattle.std.specs.Prelude.{◌≡◌, ℕ};
ghost use Rattle.net_model.specs.Networks.{Net};
ghost use Rattle.net_model.specs.Views.{discipline_of};
ghost use Rattle.net_cells.specs.Left.{left_of, left_by};

use net_model::Discipline;

/// What a server leaves each of its queues. The curve of the queues before one, and the longest packets, are not here.
#[derive(Clone, Copy)]
pub enum Leaving<'a> {
    /// All of its service.
    All,
    /// What is above the curve of the queues before it, less one packet of those after it.
    Above,
    /// A share, by the quanta of all queues.
    Share { quanta: &'a [u64] },
}

/// What a server of a discipline leaves each of its queues.
pub fn leaves(discipline: &Discipline) -> Leaving<'_>
    ensures { (net : Net) (s q : ℕ) → left_of net s q (discipline_of discipline.now) ≡ left_by net s q result }
{
    match discipline {
        Discipline::Fifo => Leaving::All,
        Discipline::Priority { .. } => Leaving::Above,
        Discipline::Drr { quanta } => Leaving::Share { quanta },
    }
}
