//! The cells of small networks, in words, worked out by hand.

use net_cells::{Cell, Kind, cells, operands, work};
use net_model::{Network, plain_network};
use report_text::cell_text;
use std::alloc::Global;
use std::test::Fail;

// The words of cells, a line each.
fn told(alloc: Global, net: &Network, list: &[Cell]) -> Result<String, Fail> {
    let mut text = String::new(alloc);
    for cell in list {
        text.push_str(cell_text(alloc, net, *cell)?.as_str())?;
        text.push_str("\n")?;
    }
    Ok(text)
}

const ALL_CELLS: &str = "in a 0
cross a 0
total a 0
queue-service a 0
theta a 0
residual a 0
queue-delay a 0
queue-backlog a 0
hop-delay a 0
shift-out a 0
deconv-out a 0
out a 0
in a 1
cross a 1
total b 0
queue-service b 0
theta a 1
residual a 1
queue-delay b 0
queue-backlog b 0
hop-delay a 1
path-service a
tfa a
sfa a
bound a
";

// The flow a passes the servers a and b. They are those of a copy, which has each server and flow.
#[test]
fn one_flow_over_two_servers_has_25_cells(rt: HostRuntime) -> Result<(), Fail> {
    let alloc = rt.alloc();
    let net = plain_network(alloc, 2, &[&[0, 1]])?.copy()?;
    let text = told(alloc, &net, &cells(alloc, &net, &[0, 1])?)?;
    assert!(rt; text.as_str() == ALL_CELLS, "{text}");
    // Without priorities no cell is of this kind; its words are there all the same.
    let higher = Cell {
        kind: Kind::Higher,
        a: 1,
        b: 0,
    };
    assert!(rt; cell_text(alloc, &net, higher)?.as_str() == "higher b 0");
    Ok(())
}

// The same network in version 2.
fn paced(net: Network) -> Network {
    let (servers, flows) = net.into_parts();
    Network::of_version(2, servers, flows)
}

// Sums go by flow; the second flow's place is empty. A path of three hops takes four operators. In version 2 a sum goes by links: the flow that enters,
// those from a, and the one from b; two of these parts are cut.
#[test]
fn what_cells_are_made_of(rt: HostRuntime) -> Result<(), Fail> {
    let alloc = rt.alloc();
    let sums = plain_network(alloc, 2, &[&[0], &[], &[1, 0], &[0]])?;
    let path = plain_network(alloc, 3, &[&[2, 0, 1]])?;
    let links = paced(plain_network(alloc, 3, &[&[0, 2], &[2], &[1, 2], &[0, 2]])?);
    let comes = "in b 0\nin a 1\nin d 1\nin c 1\n";
    let along = "residual a 0\nresidual a 1\nresidual a 2\n";
    for (net, kind, a, b, wanted, operators) in [
        (&sums, Kind::Total, 0, 0, "in a 0\nin c 1\nin d 0\n", 2),
        (&sums, Kind::Cross, 2, 1, "in a 0\nin d 0\n", 1),
        (&sums, Kind::Cross, 2, 0, "", 0),
        (&links, Kind::Total, 2, 0, comes, 5),
        (&links, Kind::Cross, 0, 1, "in b 0\nin c 1\nin d 1\n", 2),
        (&path, Kind::PathService, 0, 0, along, 4),
        (&path, Kind::In, 0, 2, "out a 1\n", 0),
        (
            &path,
            Kind::Theta,
            0,
            1,
            "cross a 1\nqueue-service a 0\n",
            1,
        ),
    ] {
        let cell = Cell { kind, a, b };
        let text = told(alloc, net, &operands(alloc, cell, net)?)?;
        assert!(rt; text.as_str() == wanted, "{text}");
        assert_eq!(rt; work(cell, net), operators, "{text}");
    }
    Ok(())
}
