//! Networks with their arcs, and the nodes and arcs that are needed.

use crate::networks::networks_of;
use crate::sources::{again, arm, both};
use flow_net::Arc;
use std::test::Fail;

/// An arc of a network.
fn arc(from: u32, to: u32, cap: u128) -> Arc {
    Arc { from, to, cap }
}

#[test]
fn arcs_of_a_branch(rt: HostRuntime) -> Result<(), Fail> {
    let profile = b"mcpre-profile 1\nfunc 0 5\nblock 0 0 5\nblock 1\nblock 2\n";
    let found = networks_of(rt.alloc(), both(), profile, 1)?.ok_or("no expression")?;
    assert_eq!(rt; found.full.net.nodes, 8);
    let wanted = [
        arc(0, 2, 5_242_880),
        arc(0, 3, 5_242_880),
        arc(3, 4, 1),
        arc(3, 6, 5_242_880),
        arc(4, 1, 1),
        arc(6, 1, 5_242_880),
    ];
    assert_eq!(rt; found.full.net.arcs.as_slice(), wanted.as_slice());
    assert_eq!(rt; found.full.constant, 0);
    Ok(())
}

#[test]
fn an_occurrence_behind_a_store_is_paid(rt: HostRuntime) -> Result<(), Fail> {
    let profile = b"mcpre-profile 1\nfunc 0 1\nblock 0\n";
    let found = networks_of(rt.alloc(), again(), profile, 0)?.ok_or("no expression")?;
    assert_eq!(rt; found.full.constant, 1_048_576);
    let wanted = [arc(0, 2, 1_048_576), arc(2, 1, 1_048_576)];
    assert_eq!(rt; found.full.net.arcs.as_slice(), wanted.as_slice());
    Ok(())
}

#[test]
fn what_is_needed_of_an_arm(rt: HostRuntime) -> Result<(), Fail> {
    let profile = b"mcpre-profile 1\nfunc 0 100\nblock 0 90 10\nblock 1 90\nblock 2 10\nblock 3\n";
    let found = networks_of(rt.alloc(), arm(), profile, 1)?.ok_or("no expression")?;
    assert_eq!(rt;
        found.needed.node_of.as_slice(),
        [0, 1, 3, 4, 6, 7, 8].as_slice()
    );
    assert_eq!(rt;
        found.needed.arc_of.as_slice(),
        [1, 2, 3, 4, 6, 7, 8].as_slice()
    );
    assert_eq!(rt; found.needed.net.nodes, 7);
    Ok(())
}
