//! Checks of flows and ranks by example.

ghost use Rattle.std.specs.Prelude.{◌≡◌, ℕ, IfOk, length};

use crate::{check_flow, check_ranks};
use flow_net::{Arc, Flow, Net, is_valid, is_within};
use std::alloc::{AllocError, Global};
use std::test::Fail;

fn arc(from: u32, to: u32, cap: u128) -> Arc {
    Arc { from, to, cap }
}

/// A network of five nodes and five arcs.
fn net(alloc: Global) -> Result<Net, AllocError>
    ensures nodes { IfOk result (λ net. net.nodes ≡ 5) }
    ensures arcs { IfOk result (λ net. length net.arcs.items ≡ 5) }
{
    let arcs = vec![in alloc;
        arc(0, 2, 2),
        arc(2, 3, 1),
        arc(3, 1, 1),
        arc(2, 1, 2),
        arc(4, 1, 0),
    ]?;
    Ok(Net { nodes: 5, arcs })
}

/// A flow on five arcs.
fn flow(alloc: Global, amounts: [u128; 5]) -> Result<Flow, AllocError>
    ensures { IfOk result (λ flow. length flow.amounts.items ≡ 5) }
{
    let amounts = amounts.to_vec(alloc)?;
    Ok(Flow { amounts })
}

#[test]
fn flows(rt: HostRuntime) -> Result<(), Fail> {
    let alloc = rt.alloc();
    let net = net(alloc)?;
    assert!(rt; is_valid(&net));
    let mut sums = [7; 5];
    for (amounts, fault) in [
        ([1, 1, 1, 0, 0], None),
        ([2, 1, 1, 1, 0], None),
        ([2, 2, 2, 0, 0], Some((true, 1))),
        ([0, 0, 0, 0, 1], Some((true, 4))),
        ([1, 0, 1, 0, 0], Some((false, 2))),
        ([1, 1, 0, 0, 0], Some((false, 3))),
    ] {
        let flow = flow(alloc, amounts)?;
        assert_eq!(rt; check_flow(&net, &flow, &mut sums), fault, "{amounts:?}");
    }
    Ok(())
}

#[test]
fn ranks(rt: HostRuntime) -> Result<(), Fail> {
    let alloc = rt.alloc();
    let net = net(alloc)?;
    assert!(rt; is_valid(&net));
    let flow = flow(alloc, [1, 1, 1, 0, 0])?;
    assert!(rt; is_within(&net, &flow));
    let mut marks = [true; 5];
    for (second, third, fourth, stuck) in [
        (0, 0, 0, None),
        (1, 0, 0, None),
        (1, 2, 0, None),
        (1, 1, 0, Some(3)),
        (2, 1, 0, Some(3)),
        (0, 1, 0, Some(3)),
        (1, 2, 1, Some(4)),
    ] {
        let ranks = [0, 0, second, third, fourth];
        assert_eq!(rt;
            check_ranks(&net, &flow, &ranks, &mut marks),
            stuck,
            "{ranks:?}"
        );
    }
    Ok(())
}
