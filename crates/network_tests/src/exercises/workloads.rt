//! Workloads whose numbers were drawn by hand, with another program.

use exercise_load::workload;
use std::test::Fail;

// Its flows pass one server each, and the first one starts at server 2.
#[test]
fn the_workload_of_7(rt: HostRuntime) -> Result<(), Fail> {
    let load = workload(rt.alloc(), 7)?;
    for flow in load.net.flows() {
        let flow = flow.as_ref().ok_or("a dropped flow")?;
        assert!(rt; flow.path.len() == 1, "{}", flow.name);
    }
    let first = load.net.flow_named("f0").ok_or("no flow f0")?;
    match load.net.flows().get(first as usize) {
        Some(Some(flow)) => assert!(rt; flow.path.as_slice() == [2].as_slice()),
        _ => assert!(rt; false),
    }
    assert!(rt; load.net.server_named("s2") == Some(2));
    Ok(())
}
