//! Edits of each kind.

ghost use Rattle.std.specs.Prelude.{◌≡◌, ◌≢◌};
ghost use Rattle.net_model.specs.declared.edit.Edit.TheVariants.{Undo};
ghost use Rattle.net_edits.specs.Edited.{edited};
ghost use Rattle.net_edits.specs.Replies.{IsReply, IsChangeReply, IsOverNone};

use crate::add::add_edited;
use crate::change::{Change, changed};
use crate::fault::EditFault;
use crate::flow_edits::{bucket_edited, drop_edited, packet_edited, route_edited, stair_edited};
use crate::server_edits::{latency_edited, link_edited, quantum_edited, rate_edited};
use net_model::{Edit, Network};
use std::alloc::Global;

/// What an edit puts into a network; the first reason why it puts in nothing; or the limit that a curve is over which
/// the edit makes, at the cell as which that counts: the service of the server's first queue, or the curve with which
/// the flow comes to its first hop. Whether the edited network has a cycle, or a cell over a limit, is not looked at.
/// Where that is want of memory, the curve that the edit makes is over no limit. An undo is no edit of one network alone.
pub fn change_of(alloc: Global, net: &Network, edit: &Edit) -> Result<Change, EditFault>
    requires { edit.now ≢ Undo }
    ensures reply { IsChangeReply net.now (edited net.now edit.now) result }
    ensures memory { result ≡ Err EditFault.NoMemory → IsOverNone (edited net.now edit.now) }
{
    match edit {
        Edit::Rate(name, rate) => rate_edited(alloc, net, name, *rate),
        Edit::Latency(name, latency) => latency_edited(alloc, net, name, *latency),
        Edit::Link(name, link) => link_edited(alloc, net, name, *link),
        Edit::Quantum(name, queue, bits) => quantum_edited(alloc, net, name, *queue, *bits),
        Edit::Bucket(name, burst, rate) => bucket_edited(alloc, net, name, *burst, *rate),
        Edit::Stair(name, period, jitter) => stair_edited(alloc, net, name, *period, *jitter),
        Edit::Packet(name, bits) => packet_edited(alloc, net, name, *bits),
        Edit::Route(name, path) => route_edited(alloc, net, name, path),
        Edit::Add(name, bits, burst, rate, path) => {
            add_edited(alloc, net, name, *bits, (*burst, *rate), path)
        }
        Edit::Drop(name) => drop_edited(alloc, net, name),
        Edit::Undo => unreachable!(),
    }
}

/// The network that an edit makes of one, which is copied; or why it makes none, as `change_of` tells.
pub fn edited_network(alloc: Global, net: &Network, edit: &Edit) -> Result<Network, EditFault>
    requires { edit.now ≢ Undo }
    ensures reply { IsReply (edited net.now edit.now) result }
    ensures memory { result ≡ Err EditFault.NoMemory → IsOverNone (edited net.now edit.now) }
{
    let change = change_of(alloc, net, edit)?;
    let copy = net.copy()?;
    Ok(changed(copy, change)?)
}
