//! Versions that are made and given up.

use std::alloc::Global;
use std::rc::Rc;
use version_table::Versions;

#[test]
fn a_value_set_in_a_version_goes_with_it(rt: HostRuntime) {
    let mut table: Versions<u32> = Versions::new(rt.alloc(), 20).expect(&rt, "memory");
    let first = Rc::new(rt.alloc(), 1).expect(&rt, "memory");
    let second = Rc::new(rt.alloc(), 2).expect(&rt, "memory");
    table.set(17, Some(first)).expect(&rt, "memory");
    table.mark().expect(&rt, "memory");
    table.set(17, Some(second)).expect(&rt, "memory");
    assert!(&rt; table.undo().is_some());
    assert!(&rt; table.get(17).copied() == Some(1));
    assert!(&rt; table.undo().is_none());
}

#[test]
fn four_thousand_versions_of_a_million_cells_fit(rt: HostRuntime) {
    let cells: u32 = 1_048_576;
    let mut table: Versions<u32> = Versions::new(rt.alloc(), cells).expect(&rt, "memory");
    let zero = Rc::new(rt.alloc(), 0).expect(&rt, "memory");
    for cell in 0..cells {
        let shared = zero.clone().expect(&rt, "memory");
        table.set(cell, Some(shared)).expect(&rt, "memory");
    }
    for k in 0..4000 {
        table.mark().expect(&rt, "memory");
        let value = Rc::new(rt.alloc(), k).expect(&rt, "memory");
        table.set(k, Some(value)).expect(&rt, "memory");
    }
    assert!(&rt; table.depth() == 4000);
    assert!(&rt; table.get(3999).copied() == Some(3999));
    for _ in 0..4000 {
        assert!(&rt; table.undo().is_some());
    }
    assert!(&rt; table.get(3999).copied() == Some(0));
}
