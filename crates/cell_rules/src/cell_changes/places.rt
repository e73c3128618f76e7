//! Places of cells in a table by number.

ghost use Rattle.std.specs.Prelude.{◌≡◌, ◌<◌, ◌↔◌, IsTrue};
ghost use Rattle.cell_rules.specs.cell_changes.Slots.{first_slot, rows, columns, slot, slots, is_placed, HasSlot};

use net_cells::{Cell, Kind};

/// How many places there are.
pub const SLOTS: u32 = 36352;

/// Where the places of a kind begin.
fn first_slot(kind: Kind) -> u32
    ensures value { result ≡ first_slot kind }
    ensures small { result < 36352 }
{
    match kind {
        Kind::In => 0,
        Kind::Cross => 4096,
        Kind::Theta => 8192,
        Kind::Residual => 12288,
        Kind::HopDelay => 16384,
        Kind::ShiftOut => 20480,
        Kind::DeconvOut => 24576,
        Kind::Out => 28672,
        Kind::Total => 32768,
        Kind::Higher => 33280,
        Kind::QueueService => 33792,
        Kind::QueueDelay => 34304,
        Kind::QueueBacklog => 34816,
        Kind::PathService => 35328,
        Kind::Tfa => 35584,
        Kind::Sfa => 35840,
        Kind::Bound => 36096,
    }
}

/// How many rows of places a kind has.
fn rows(kind: Kind) -> u32
    ensures { result ≡ rows kind }
{
    match kind {
        Kind::Total | Kind::Higher | Kind::QueueService | Kind::QueueDelay | Kind::QueueBacklog =>
            64,
        _ => 256,
    }
}

/// How many places of a kind one row has.
fn columns(kind: Kind) -> u32
    ensures value { result ≡ columns kind }
    ensures small { result < 17 }
{
    match kind {
        Kind::In
        | Kind::Cross
        | Kind::Theta
        | Kind::Residual
        | Kind::HopDelay
        | Kind::ShiftOut
        | Kind::DeconvOut
        | Kind::Out => 16,
        Kind::Total | Kind::Higher | Kind::QueueService | Kind::QueueDelay | Kind::QueueBacklog =>
            8,
        Kind::PathService | Kind::Tfa | Kind::Sfa | Kind::Bound => 1,
    }
}

/// Whether a cell has a place.
pub fn is_placed(cell: Cell) -> bool
    ensures value { result ≡ is_placed cell }
    ensures place { IsTrue result ↔ HasSlot cell }
{
    cell.a < rows(cell.kind) && cell.b < columns(cell.kind)
}

/// The place of a cell: below `SLOTS`, and no other cell's.
pub fn slot(cell: Cell) -> u32
    requires { HasSlot cell }
    ensures value { result ≡ slot cell }
    ensures below { result < slots }
{
    first_slot(cell.kind) + (cell.a * columns(cell.kind) + cell.b)
}
