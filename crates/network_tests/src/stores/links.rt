//! Lists worked out by hand.

ghost use Rattle.std.specs.Prelude.{◌≡◌, ◌<◌, length};
ghost use Rattle.queue_sched.specs.index_links.Chains.{IsFree};

use queue_sched::index_links::Links;
use std::test::Fail;

/// Puts a node at the head or at the end of a list, where no list has it, and tells whether it was so.
fn put(links: &mut Links, list: u32, node: u32, is_first: bool) -> bool
    requires list { list < length links.old.lists }
    requires node { node < links.old.nodes }
    ensures nodes { links.new.nodes ≡ links.old.nodes }
    ensures lists { length links.new.lists ≡ length links.old.lists }
{
    if links.list_of(node).is_some() {
        return false;
    }
    if is_first {
        links.push_head(list, node);
    } else {
        links.push_tail(list, node);
    }
    true
}

/// Takes a node out of its list, if a list has it, and tells whether one had.
fn take_out(links: &mut Links, node: u32) -> bool
    requires node { node < links.old.nodes }
    ensures nodes { links.new.nodes ≡ links.old.nodes }
    ensures lists { length links.new.lists ≡ length links.old.lists }
{
    if links.list_of(node).is_none() {
        return false;
    }
    links.unlink(node);
    true
}

/// The node after this one; none also where no list has it.
fn after(links: &Links, node: u32) -> Option<u32>
    requires { node < links.now.nodes }
{
    if links.list_of(node).is_none() {
        return None;
    }
    links.next(node)
}

#[test]
fn a_list_keeps_its_order(rt: HostRuntime) -> Result<(), Fail> {
    let mut links = Links::new(rt.alloc(), 3, 2)?;
    assert!(rt; put(&mut links, 0, 1, false));
    assert!(rt; put(&mut links, 0, 2, false));
    assert!(rt; put(&mut links, 0, 0, true));
    assert!(rt; take_out(&mut links, 1));
    assert!(rt; links.list_of(1) == None);
    links.grow(4)?;
    assert!(rt; links.first(0) == Some(0));
    assert!(rt; after(&links, 0) == Some(2));
    assert!(rt; after(&links, 2) == None);
    assert!(rt; links.first(1) == None);
    assert!(rt; links.list_of(2) == Some(0));
    assert!(rt; links.pop_head(0) == Some(0));
    assert!(rt; links.pop_head(0) == Some(2));
    assert!(rt; links.pop_head(0) == None);
    Ok(())
}
