//! A loop and a branch, with points marked by hand.
ghost use Rattle.std.specs.Prelude.{IsTrue};
ghost use Rattle.flow_paths.specs.Paths.{ArcsWithin};

use crate::{Mark, meets_unwritten, spread, unwritten};
use std::test::Fail;

// From 0 by 1 into the loop of 2 and 3, and from 3 or 1 to 4.
const ARCS: [(u32, u32); 6] = [(0, 1), (1, 2), (2, 3), (3, 2), (3, 4), (1, 4)];

/// Whether each arc joins two of the points.
fn is_within(arcs: &[(u32, u32)], points: usize) -> bool
    ensures { IsTrue result → ArcsWithin arcs.now points }
{
    for (from, to) in arcs {
        if *from as usize >= points || *to as usize >= points {
            return false;
        }
    }
    true
}

#[test]
fn bits_spread_and_stop(rt: HostRuntime) -> Result<(), Fail> {
    let alloc = rt.alloc();
    let arcs = ARCS.as_slice();
    let passes = [true, true, true, true, false, false];
    let seeds = [false, true, false, false, false].to_vec(alloc)?;
    assert_eq!(rt; (arcs.len(), seeds.len()), (6, 5));
    assert!(rt; is_within(arcs, 5));
    let bits = spread(alloc, arcs, passes.as_slice(), seeds)?;
    assert_eq!(rt;
        bits.as_slice(),
        [false, true, true, true, false].as_slice()
    );
    Ok(())
}

#[test]
fn marks_write_and_kill(rt: HostRuntime) -> Result<(), Fail> {
    let alloc = rt.alloc();
    let arcs = ARCS.as_slice();
    let points = [Mark::Pass, Mark::Pass, Mark::Write, Mark::Kill, Mark::Pass];
    let edges = [
        Mark::Pass,
        Mark::Pass,
        Mark::Pass,
        Mark::Pass,
        Mark::Write,
        Mark::Pass,
    ];
    let goals = [false, false, false, false, true].to_vec(alloc)?;
    assert_eq!(rt; (arcs.len(), goals.len()), (6, 5));
    assert!(rt; is_within(arcs, 5));
    let bits = unwritten(alloc, arcs, points.as_slice(), edges.as_slice())?;
    assert_eq!(rt; bits.as_slice(), [true, true, true, false, true].as_slice());
    let bits = meets_unwritten(alloc, arcs, points.as_slice(), edges.as_slice(), goals)?;
    assert_eq!(rt;
        bits.as_slice(),
        [true, true, false, false, true].as_slice()
    );
    Ok(())
}
