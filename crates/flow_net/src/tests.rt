//! Networks and flows by example.

use crate::levels::distances_to_sink;
use crate::{Arc, Flow, Net, excess, is_valid, is_within, residual, value};
use mc_num::NoMemory;
use std::alloc::Global;
use std::test::Fail;

fn net_of(alloc: Global, nodes: u32, arcs: &[(u32, u32, u128)]) -> Result<Net, NoMemory> {
    let mut net = Net {
        nodes,
        arcs: Vec::new(alloc),
    };
    for (from, to, cap) in arcs {
        net.arcs.push(Arc {
            from: *from,
            to: *to,
            cap: *cap,
        })?;
    }
    Ok(net)
}

const HALF: u128 = 1 << 119;

#[test]
fn validity(rt: HostRuntime) -> Result<(), Fail> {
    let alloc = rt.alloc();
    assert!(rt; is_valid(&net_of(alloc, 2, &[])?));
    assert!(rt; is_valid(&net_of(alloc, 4, &[(0, 2, 1), (0, 2, 0), (2, 2, 4), (2, 1, 1)])?));
    assert!(rt; is_valid(&net_of(alloc, 2, &[(0, 1, HALF), (0, 1, HALF - 1)])?));
    assert!(rt;
        !is_valid(&net_of(alloc, 2, &[(0, 1, HALF), (0, 1, HALF)])?),
        "too much in all"
    );
    assert!(rt;
        !is_valid(&net_of(alloc, 2, &[(0, 1, u128::MAX), (0, 1, 1)])?),
        "a sum past a u128"
    );
    assert!(rt; !is_valid(&net_of(alloc, 1, &[])?), "no sink");
    assert!(rt;
        !is_valid(&net_of(alloc, 3, &[(0, 3, 1)])?),
        "an end out of range"
    );
    assert!(rt;
        !is_valid(&net_of(alloc, 3, &[(2, 0, 1)])?),
        "into the source"
    );
    assert!(rt;
        !is_valid(&net_of(alloc, 3, &[(1, 2, 1)])?),
        "out of the sink"
    );
    Ok(())
}

#[test]
fn a_chain(rt: HostRuntime) -> Result<(), Fail> {
    let alloc = rt.alloc();
    let net = net_of(alloc, 5, &[(0, 2, 3), (2, 3, 2), (3, 1, 5), (4, 1, 1)])?;
    let flow = Flow {
        amounts: vec![in alloc; 2, 2, 1, 0]?,
    };
    assert!(rt; is_valid(&net));
    assert!(rt; is_within(&net, &flow));
    assert_eq!(rt; net.arcs.len(), 4);
    assert_eq!(rt; value(&net, &flow), 2);
    assert_eq!(rt; excess(&net, &flow, 0), -2);
    assert_eq!(rt; excess(&net, &flow, 1), 1);
    assert_eq!(rt; excess(&net, &flow, 2), 0);
    assert_eq!(rt; excess(&net, &flow, 3), 1);
    assert_eq!(rt; residual(&net, &flow, 0), (1, 2));
    assert_eq!(rt; residual(&net, &flow, 1), (0, 2));
    let found = distances_to_sink(alloc, &net, &flow)?;
    assert_eq!(rt;
        found.reached.as_slice(),
        [false, true, false, true, true].as_slice()
    );
    assert_eq!(rt; found.distance.as_slice(), [0, 0, 0, 1, 1].as_slice());
    assert!(rt;
        !is_within(
            &net,
            &Flow {
                amounts: vec![in alloc; 2, 2, 1]?
            }
        ),
        "an amount is missing"
    );
    assert!(rt;
        !is_within(
            &net,
            &Flow {
                amounts: vec![in alloc; 4, 0, 0, 0]?
            }
        ),
        "above the capacity"
    );
    Ok(())
}
