//! What blocks do to expressions, and the points from which they are sure to occur.

use crate::local::{is_safe, local_at};
use crate::sources::{arm, barred, divides};
use expressions::Event;
use local_sets::BlockSets;
use std::test::Fail;

/// A block whose first and last occurrence or kill are the same.
fn one(event: Event) -> BlockSets {
    BlockSets {
        first: event,
        last: event,
        forced: 0,
    }
}

#[test]
fn sets_of_blocks(rt: HostRuntime) -> Result<(), Fail> {
    let found = local_at(rt.alloc(), arm(), 1, 1)?.ok_or("no expression")?;
    let wanted = [
        one(Event::Kills),
        one(Event::Occurs),
        one(Event::Passes),
        one(Event::Occurs),
    ];
    assert_eq!(rt; found.sets.as_slice(), wanted.as_slice());
    Ok(())
}

#[test]
fn inevitable_points(rt: HostRuntime) -> Result<(), Fail> {
    // Behind a kill, and behind a call that may end the program, an expression is inevitable, and not before.
    let found = local_at(rt.alloc(), divides(), 0, 2)?.ok_or("no expression")?;
    assert_eq!(rt;
        found.inevitable.as_slice(),
        b"............IIII.........".as_slice()
    );
    let found = local_at(rt.alloc(), barred(), 2, 1)?.ok_or("no expression")?;
    assert_eq!(rt;
        found.inevitable.as_slice(),
        b".........IIII......III.".as_slice()
    );
    // Edges above the call aren't safe, and the one behind it is.
    for (edge, wanted) in [
        (8, true),
        (9, false),
        (12, true),
        (17, false),
        (18, false),
        (19, true),
    ] {
        assert_eq!(rt; is_safe(&found, &[edge]), wanted, "at {edge}");
    }
    assert!(rt; is_safe(&found, &[]));
    Ok(())
}
