//! Orders of small networks, worked out by hand.

use net_model::net_graph::order;
use net_model::{Network, plain_network};
use std::alloc::Global;
use std::process::Abort;
use std::test::Fail;

fn expect_order(rt: &impl Abort, alloc: Global, net: &Network, wanted: &[u32]) {
    match order(alloc, net) {
        Ok(found) => assert_eq!(rt; found.as_slice(), wanted),
        Err(_) => assert!(rt; false, "no order"),
    }
}

// A dropped flow counts for nothing.
#[test]
fn the_least_ready_server_comes_first(rt: HostRuntime) -> Result<(), Fail> {
    let net = plain_network(rt.alloc(), 4, &[&[3, 1], &[1, 0], &[3, 2]])?;
    expect_order(&rt, rt.alloc(), &net, &[3, 1, 0, 2]);
    let free = plain_network(rt.alloc(), 3, &[&[1]])?;
    expect_order(&rt, rt.alloc(), &free, &[0, 1, 2]);
    let none = plain_network(rt.alloc(), 0, &[])?;
    expect_order(&rt, rt.alloc(), &none, &[]);
    let dropped = plain_network(rt.alloc(), 2, &[&[0, 1], &[]])?;
    expect_order(&rt, rt.alloc(), &dropped, &[0, 1]);
    Ok(())
}
