ghost use Rattle.std.specs.Prelude.{◌≡◌, ◌<◌, ◌+◌, ◌^◌};
ghost use Rattle.queue_sched.specs.index_links.Rings.{node_of};

use std::alloc::{AllocError, Global};
use std::marker::Model;

/// Nodes named by number from 0 on, each in at most one of several lists, which are numbered from 0 on too.
///
/// Contracts see the number of nodes, and the list of nodes of each list. How it is kept, as circles of cells with an
/// end for each list, is own choice.
#[derive(Drop)]
pub struct Links {
    lists: u32,
    next: Vec<usize>,
    prev: Vec<usize>,
    owners: Vec<u32>,
}

impl Model for Links {
    ghost use Rattle.std.specs.Prelude.{length};
    ghost use Rattle.queue_sched.specs.index_links.Chains.{Chains};

    ghost Value = { Chains };

    ghost use Rattle.queue_sched.specs.index_links.Rings.{chains_of, AreStored};

    ghost view = { λ a. chains_of a.next.items a.lists (length a.owners.items) };

    ghost invariant = { λ a. AreStored a.next.items a.prev.items a.owners.items a.lists };
}

/// The node of a cell, if it is no end of a list.
fn node_at(lists: u32, cell: usize) -> Option<u32>
    requires { cell < lists + 2 ^ 32 }
    ensures { result ≡ node_of lists cell }
{
    let lists = lists as usize;
    if cell < lists {
        None
    } else {
        Some((cell - lists) as u32)
    }
}

impl Links {
    ghost use Rattle.std.specs.Prelude.{◌≡◌, ℕ, ◌<◌, ◌≤◌, length, Some, None, OnOk, OnErr, IfOk, IfSome, IfNone, replicate, [], ◌∷◌, ◌++◌, drop};
    ghost use Rattle.queue_sched.specs.index_links.Chains.{list_at, Has, IsLinked, IsFree, first_of, after, with_list, unlinked, AreDisjoint};

    /// So many lists, with no node in them, and room for so many nodes. Refused only for want of memory.
    pub fn new(alloc: Global, nodes: u32, lists: u32) -> Result<Links, AllocError>
        ensures { IfOk result (λ v. v ≡ record { nodes = nodes; lists = replicate lists [] }) }
    {
        let cells = lists as usize + nodes as usize;
        let mut next = vec![in alloc; 0; cells]?;
        let mut prev = vec![in alloc; 0; cells]?;
        let owners = vec![in alloc; lists; nodes as usize]?;
        for end in 0..lists as usize {
            next[end] = end;
            prev[end] = end;
        }
        Ok(Links {
            lists,
            next,
            prev,
            owners,
        })
    }

    /// Makes room for so many nodes, at least as many as now. The new ones are in no list. Refused only for want of
    /// memory, and then all is as it was.
    pub fn grow(&mut self, nodes: u32) -> Result<(), AllocError>
        requires { self.old.nodes ≤ nodes }
        ensures grown { OnOk result (self.new ≡ record { nodes = nodes; lists = self.old.lists }) }
        ensures kept { OnErr result (self.new ≡ self.old) }
    {
        let cells = self.lists as usize + nodes as usize;
        self.next.resize(cells, 0)?;
        self.prev.resize(cells, 0)?;
        self.owners.resize(nodes as usize, self.lists)?;
        Ok(())
    }

    /// The first node of a list; none exactly where the list is empty.
    pub fn first(&self, list: u32) -> Option<u32>
        requires { list < length self.now.lists }
        ensures { result ≡ first_of (list_at self.now list) }
    {
        node_at(self.lists, self.next[list as usize])
    }

    /// The node after a node that is in a list; none exactly where it is the last.
    pub fn next(&self, node: u32) -> Option<u32>
        requires { IsLinked self.now node }
        ensures { (l : ℕ) → Has (list_at self.now l) node → result ≡ after node (list_at self.now l) }
    {
        node_at(self.lists, self.next[self.lists as usize + node as usize])
    }

    /// The list that has a node; none exactly where no list has it.
    pub fn list_of(&self, node: u32) -> Option<u32>
        requires { node < self.now.nodes }
        ensures some { IfSome result (λ l. Has (list_at self.now l) node) }
        ensures none { IfNone result (IsFree self.now node) }
    {
        let owner = self.owners[node as usize];
        if owner < self.lists {
            Some(owner)
        } else {
            None
        }
    }

    /// Puts a node that is in no list at the tail of a list.
    pub fn push_tail(&mut self, list: u32, node: u32)
        requires list { list < length self.old.lists }
        requires node { node < self.old.nodes }
        requires free { IsFree self.old node }
        ensures { self.new ≡ with_list self.old list (list_at self.old list ++ node ∷ []) }
    {
        let cell = self.lists as usize + node as usize;
        let end = list as usize;
        let last = self.prev[end];
        self.next[last] = cell;
        self.prev[cell] = last;
        self.next[cell] = end;
        self.prev[end] = cell;
        self.owners[node as usize] = list;
    }

    /// Puts a node that is in no list at the head of a list.
    pub fn push_head(&mut self, list: u32, node: u32)
        requires list { list < length self.old.lists }
        requires node { node < self.old.nodes }
        requires free { IsFree self.old node }
        ensures { self.new ≡ with_list self.old list (node ∷ list_at self.old list) }
    {
        let cell = self.lists as usize + node as usize;
        let end = list as usize;
        let first = self.next[end];
        self.prev[first] = cell;
        self.next[cell] = first;
        self.prev[cell] = end;
        self.next[end] = cell;
        self.owners[node as usize] = list;
    }

    /// Takes the first node out of a list; none exactly where the list is empty.
    pub fn pop_head(&mut self, list: u32) -> Option<u32>
        requires { list < length self.old.lists }
        ensures first { result ≡ first_of (list_at self.old list) }
        ensures rest { self.new ≡ with_list self.old list (drop 1 (list_at self.old list)) }
    {
        self.are_disjoint();
        let first = self.first(list)?;
        self.unlink(first);
        Some(first)
    }

    /// Does nothing, and tells that each node is one of the nodes, and in one place of one list.
    pub fn are_disjoint(&self)
        ensures { AreDisjoint self.now }
    {
        let _ = &self.lists;
    }

    /// Takes a node out of its list.
    pub fn unlink(&mut self, node: u32)
        requires { IsLinked self.old node }
        ensures { self.new ≡ unlinked self.old node }
    {
        let cell = self.lists as usize + node as usize;
        let before = self.prev[cell];
        let behind = self.next[cell];
        self.next[before] = behind;
        self.prev[behind] = before;
        self.owners[node as usize] = self.lists;
    }
}
