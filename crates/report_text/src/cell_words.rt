//! Cells in words.

ghost use Rattle.std.specs.Prelude.{◌≡◌, ◌++◌, codes, IfOk};
ghost use Rattle.std.specs.Fmt.{decimal};
ghost use Rattle.std.specs.String.{string_bytes};
ghost use Rattle.report_text.specs.CellWords as words;

use itoa::Buffer;
use net_cells::{Cell, Kind, Scope, live_flow, server};
use net_model::Network;
use std::alloc::{AllocError, Global};

/// The name of a server; empty past the last one.
pub fn server_name<'a>(net: &'a Network, number: u32) -> &'a str
    ensures { result.now ≡ words.server_name net.now number }
{
    match server(net, number) {
        Some(found) => found.name.as_str(),
        None => "",
    }
}

// The name of a flow; empty where it is not live.
pub(crate) fn flow_name<'a>(net: &'a Network, number: u32) -> &'a str
    ensures { result.now ≡ words.flow_name net.now number }
{
    match live_flow(net, number) {
        Some(found) => found.name.as_str(),
        None => "",
    }
}

fn kind_word(kind: Kind) -> &'static str
    ensures { result.now ≡ words.kind_word kind }
{
    match kind {
        Kind::In => "in",
        Kind::Cross => "cross",
        Kind::Total => "total",
        Kind::Higher => "higher",
        Kind::QueueService => "queue-service",
        Kind::Theta => "theta",
        Kind::Residual => "residual",
        Kind::QueueDelay => "queue-delay",
        Kind::QueueBacklog => "queue-backlog",
        Kind::HopDelay => "hop-delay",
        Kind::ShiftOut => "shift-out",
        Kind::DeconvOut => "deconv-out",
        Kind::Out => "out",
        Kind::PathService => "path-service",
        Kind::Tfa => "tfa",
        Kind::Sfa => "sfa",
        Kind::Bound => "bound",
    }
}

// A word and a name.
fn named(alloc: Global, word: &str, name: &str) -> Result<String, AllocError>
    ensures { IfOk result (λ s. string_bytes s ≡ word.now ++ codes " " ++ name.now) }
{
    let mut text = String::from_str(alloc, word)?;
    text.push_str(" ")?;
    text.push_str(name)?;
    Ok(text)
}

// A word, a name and a number.
fn numbered(alloc: Global, word: &str, name: &str, number: u32) -> Result<String, AllocError>
    ensures { IfOk result (λ s. string_bytes s ≡ word.now ++ codes " " ++ name.now ++ codes " " ++ decimal number) }
{
    let mut text = named(alloc, word, name)?;
    let mut digits = Buffer::new();
    text.push_str(" ")?;
    text.push_str(digits.format(number))?;
    Ok(text)
}

// A word, and a place after it: a flow and a hop, a server and a queue, or a flow.
fn words_at(
    alloc: Global,
    net: &Network,
    word: &str,
    scope: Scope,
    a: u32,
    b: u32,
) -> Result<String, AllocError>
    ensures { IfOk result (λ s. string_bytes s ≡ words.words_at net.now word.now scope a b) }
{
    match scope {
        Scope::EachHop | Scope::EachHopButLast => numbered(alloc, word, flow_name(net, a), b),
        Scope::EachQueue | Scope::EachPriorityQueue => {
            numbered(alloc, word, server_name(net, a), b)
        }
        Scope::EachPath => named(alloc, word, flow_name(net, a)),
    }
}

/// A cell in words: the word of its kind, and then a flow's name and a hop, a server's name and a queue, or a flow's
/// name alone, by what its kind has cells for. Where the network has no such server, or no such live flow, nothing stands
/// in place of the name. Refused only for want of memory.
#[tactic(auto, unfolding(crate::specs::CellWords::cell_words))]
pub fn cell_text(alloc: Global, net: &Network, cell: Cell) -> Result<String, AllocError>
    ensures { IfOk result (λ s. string_bytes s ≡ words.cell_words net.now cell) }
{
    words_at(
        alloc,
        net,
        kind_word(cell.kind),
        cell.kind.scope(),
        cell.a,
        cell.b,
    )
}
