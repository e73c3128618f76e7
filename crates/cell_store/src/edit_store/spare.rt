//! The present network once more.

ghost use Rattle.std.specs.Prelude.{◌≡◌, Some};
ghost use Rattle.std.specs.Option.{option_map};
ghost use Rattle.net_model.specs.Networks.{Net};
ghost use Rattle.net_model.specs.Accepted.{IsAccepted};
ghost use Rattle.cell_rules.specs.edit_sites.Replaced as replaced;

use cell_rules::edit_sites::{Replaced, put_back};
use net_edits::{Change, changed};
use net_model::Network;
use std::alloc::{AllocError, Global};

/// The present network once more, so that an edit can change this one while the present one stands beside it, and
/// neither is copied; and what edits replaced of it. Where there was no memory for it, or where it was changed for an edit
/// that was then refused (for a cycle, a cell over a limit or want of memory), there is none until an edit is taken, which
/// is then made of a copy.
#[derive(Drop)]
pub(crate) struct Spare {
    pub net: Option<Network>,
    pub replaced: Vec<Replaced>,
}

// Puts back into a network, if there is one, what was replaced of it.
fn put_back_if_there(net: Option<Network>, last: Replaced) -> Option<Network>
    requires { (n : Net) → net ≡ Some n → IsAccepted (replaced.put_back last n) }
    ensures { result ≡ option_map (replaced.put_back last) net }
{
    match net {
        Some(net) => Some(put_back(net, last)),
        None => None,
    }
}

impl Spare {
    ghost use Rattle.std.specs.Prelude.{◌≡◌, ◌≢◌, ◌++◌, ◌∷◌, [], None, IfOk, IsSome};
    ghost use Rattle.net_model.specs.Accepted.{IsAccepted};
    ghost use Rattle.net_edits.specs.Changed as spec;
    ghost use Rattle.cell_store.specs.edit_store.Kept.{IsSameAs, GoesBack, IsOneLess};

    /// Of a network that nothing was replaced of.
    pub fn of(alloc: Global, present: &Network) -> Spare
        ensures same { IsSameAs result.net present.now }
        ensures replaced { result.replaced.items ≡ [] }
    {
        Spare {
            net: present.copy().ok(),
            replaced: Vec::new(alloc),
        }
    }

    /// The network, to be changed; a copy of the present one where there is none.
    pub fn take(&mut self, present: &Network) -> Result<Network, AllocError>
        requires { IsSameAs self.old.net present.now }
        ensures same { IfOk result (λ net. net ≡ present.now) }
        ensures taken { self.new.net ≡ None }
        ensures kept { self.new.replaced ≡ self.old.replaced }
    {
        match self.net.take() {
            Some(net) => Ok(net),
            None => present.copy(),
        }
    }

    /// Follows the present network, from the one that it was, by the same change. Only for one flow more it may be lost.
    pub fn follow(&mut self, before: Network, change: Change)
        requires { IsAccepted (spec.changed change before) }
        ensures same { IsSameAs self.new.net (spec.changed change before) }
        ensures there { ¬ spec.IsMore change → IsSome self.new.net }
        ensures kept { self.new.replaced ≡ self.old.replaced }
    {
        self.net = changed(before, change).ok();
    }

    /// Goes back to the present network, as that did. It takes no memory.
    pub fn go_back(&mut self, present: &Network)
        requires some { self.old.replaced.items ≢ [] }
        requires back { GoesBack self.old.net self.old.replaced.items present.now }
        ensures same { IsSameAs self.new.net present.now }
        ensures fewer { IsOneLess self.old.replaced.items self.new.replaced.items }
    {
        present.keeps();
        let Some(last) = self.replaced.pop() else {
            unreachable!()
        };
        self.net = put_back_if_there(self.net.take(), last);
    }
}
