//! Flows and cuts by example.

ghost use Rattle.std.specs.Prelude.{◌≡◌, ◌<◌};
ghost use Rattle.flow_net.specs.Network.{IsValid};

use crate::sides::{is_in_latest, least_capacity};
use flow_net::{Arc, Flow, Net, is_valid, is_within, value};
use latest_cut::{Cut, latest};
use max_flow::{Steps, max_flow, no_flow, phase, room};
use mc_num::NoMemory;
use std::alloc::Global;
use std::marker::Brand;
use std::process::Abort;
use std::sync::ledger::{Blank, Ledger};
use std::test::Fail;

const HALF: u128 = 1 << 119;

const WHOLE: u128 = 1 << 120;

fn net_of(alloc: Global, nodes: u32, arcs: &[(u32, u32, u128)]) -> Result<Net, NoMemory> {
    let mut net = Net {
        nodes,
        arcs: Vec::new(alloc),
    };
    for (from, to, cap) in arcs {
        net.arcs.push(Arc {
            from: *from,
            to: *to,
            cap: *cap,
        })?;
    }
    Ok(net)
}

/// The flow and the latest cut of a network, if it is valid.
fn solved(alloc: Global, net: &Net) -> Result<Option<(Flow, Cut)>, NoMemory> {
    if !is_valid(net) {
        return Ok(None);
    }
    Ok(Some(solved_on::<Brand>(alloc, Blank::new(1), net)?))
}

fn solved_on<L: Ledger>(alloc: Global, blank: Blank, net: &Net) -> Result<(Flow, Cut), NoMemory>
    requires name { blank.name ≡ L.name }
    requires parts { blank.parts ≡ L.parts }
    requires some { 0 < blank.parts }
    requires valid { IsValid net.now }
{
    let mut steps = Steps::<L>::new(blank);
    let flow = max_flow(alloc, net, &mut steps)?;
    let cut = latest(alloc, net, &flow)?;
    Ok((flow, cut))
}

/// The flow of a network by calls of `phase`, and how many there were.
fn phased(alloc: Global, net: &Net) -> Result<Option<(Flow, u32)>, NoMemory> {
    if !is_valid(net) {
        return Ok(None);
    }
    phased_on::<Brand>(alloc, Blank::new(1), net)
}

fn phased_on<L: Ledger>(
    alloc: Global,
    blank: Blank,
    net: &Net,
) -> Result<Option<(Flow, u32)>, NoMemory>
    requires name { blank.name ≡ L.name }
    requires parts { blank.parts ≡ L.parts }
    requires some { 0 < blank.parts }
    requires valid { IsValid net.now }
{
    let mut steps = Steps::<L>::new(blank);
    let mut room = room(alloc, net)?;
    let mut flow = no_flow(alloc, net)?;
    for round in 0..net.nodes {
        if !phase(net, &mut flow, &mut room, &mut steps) {
            return Ok(Some((flow, round + 1)));
        }
    }
    Ok(None)
}

/// The flow and the cut of a network are those that all its sides tell.
fn agree(
    rt: &impl Abort,
    alloc: Global,
    nodes: u32,
    arcs: &[(u32, u32, u128)],
) -> Result<(), NoMemory> {
    let net = net_of(alloc, nodes, arcs)?;
    let least = least_capacity(&net);
    let Some((flow, cut)) = solved(alloc, &net)? else {
        panic!(rt; "not valid");
    };
    assert!(rt; is_valid(&net));
    assert!(rt; is_within(&net, &flow));
    assert_eq!(rt; value(&net, &flow), least);
    for (node, is_inside) in (0..nodes).zip(cut.sink_side.iter()) {
        assert_eq!(rt; *is_inside, is_in_latest(&net, least, node));
    }
    Ok(())
}

#[test]
fn all_sides(rt: HostRuntime) -> Result<(), Fail> {
    let alloc = rt.alloc();
    agree(&rt, alloc, 2, &[])?;
    agree(&rt, alloc, 2, &[(0, 1, 0)])?;
    agree(&rt, alloc, 2, &[(0, 1, 3), (0, 1, 0), (0, 1, 4)])?;
    agree(&rt, alloc, 2, &[(0, 1, HALF), (0, 1, HALF - 1)])?;
    agree(&rt, alloc, 3, &[(0, 2, WHOLE - 9), (2, 1, 8)])?;
    agree(&rt, alloc, 5, &[(0, 2, 3), (3, 1, 4), (3, 4, 1)])?;
    agree(
        &rt,
        alloc,
        5,
        &[
            (0, 2, 3),
            (2, 3, 2),
            (3, 4, 9),
            (4, 2, 9),
            (3, 1, 1),
            (2, 2, 5),
        ],
    )?;
    agree(
        &rt,
        alloc,
        6,
        &[
            (0, 2, 1),
            (0, 3, 1),
            (2, 4, 1),
            (3, 4, 1),
            (2, 5, 1),
            (4, 1, 1),
            (5, 1, 1),
        ],
    )?;
    agree(
        &rt,
        alloc,
        6,
        &[
            (0, 2, 9),
            (0, 3, 4),
            (2, 3, 2),
            (3, 2, 3),
            (2, 4, 5),
            (3, 5, 6),
            (4, 5, 2),
            (5, 4, 1),
            (4, 1, 4),
            (5, 1, 7),
        ],
    )?;
    agree(
        &rt,
        alloc,
        4,
        &[(0, 2, HALF - 7), (2, 3, HALF - 8), (3, 1, 14)],
    )?;
    Ok(())
}

#[test]
fn small_networks(rt: HostRuntime) -> Result<(), Fail> {
    let alloc = rt.alloc();
    let empty = net_of(alloc, 2, &[])?;
    let (flow, count) = phased(alloc, &empty)?.ok_or("not valid")?;
    assert_eq!(rt; flow.amounts.len(), 0);
    assert_eq!(rt; count, 1);
    let (_, cut) = solved(alloc, &empty)?.ok_or("not valid")?;
    assert_eq!(rt; cut.sink_side.as_slice(), [false, true].as_slice());
    let chain = net_of(alloc, 4, &[(0, 2, 3), (2, 3, 2), (3, 1, 5)])?;
    let (flow, count) = phased(alloc, &chain)?.ok_or("not valid")?;
    assert_eq!(rt; flow.amounts.as_slice(), [2, 2, 2].as_slice());
    assert!(rt; count <= 4);
    let (_, cut) = solved(alloc, &chain)?.ok_or("not valid")?;
    assert_eq!(rt;
        cut.sink_side.as_slice(),
        [false, true, false, true].as_slice()
    );
    assert_eq!(rt; cut.rank.as_slice(), [0, 0, 0, 1].as_slice());
    Ok(())
}

/// All of the entry's weight goes by one block, whose way on it fills.
#[test]
fn a_block_network(rt: HostRuntime) -> Result<(), Fail> {
    let alloc = rt.alloc();
    let net = net_of(
        alloc,
        8,
        &[
            (0, 2, 5242880),
            (0, 3, 5242880),
            (3, 4, 1),
            (3, 6, 5242880),
            (4, 1, 1),
            (6, 1, 5242880),
        ],
    )?;
    let (flow, cut) = solved(alloc, &net)?.ok_or("not valid")?;
    assert!(rt; is_valid(&net));
    assert!(rt; is_within(&net, &flow));
    assert_eq!(rt; value(&net, &flow), 5242880);
    assert_eq!(rt;
        cut.sink_side.as_slice(),
        [false, true, false, true, true, false, true, false].as_slice()
    );
    Ok(())
}

/// The network of a sum in one of two arms and where they meet, whose arms were taken 90 and 10 times: it has one maximum
/// flow, found by two phases at the most.
#[test]
fn an_arm_and_where_it_meets(rt: HostRuntime) -> Result<(), Fail> {
    let alloc = rt.alloc();
    let net = net_of(
        alloc,
        10,
        &[
            (0, 2, 104857600),
            (0, 3, 104857600),
            (3, 4, 94371840),
            (3, 6, 10485760),
            (4, 1, 94371840),
            (5, 8, 94371840),
            (6, 7, 10485760),
            (7, 8, 10485760),
            (8, 1, 104857600),
        ],
    )?;
    let (flow, count) = phased(alloc, &net)?.ok_or("not valid")?;
    assert!(rt; count <= 3);
    assert_eq!(rt;
        flow.amounts.as_slice(),
        [
            0, 104857600, 94371840, 10485760, 94371840, 0, 10485760, 10485760, 10485760
        ]
        .as_slice()
    );
    Ok(())
}
