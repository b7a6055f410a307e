use crate::placing::placed_at;
use crate::seen::{Seen, seen_at};
use crate::sources::{a_global, arm, both, cold, looping, mixed};
use std::alloc::Global;
use std::process::Abort;
use std::test::Fail;

fn has_counts(rt: &impl Abort, found: &Seen, counts: (usize, usize, usize, u32)) {
    assert_eq!(rt;
        (found.blocks, found.points, found.edges, found.exprs),
        counts
    );
}

/// A function has so many reached blocks, points, edges and expressions, and these traps and events.
fn has(
    rt: &impl Abort,
    alloc: Global,
    source: &[u8],
    number: usize,
    counts: (usize, usize, usize, u32),
    traps: &[u8],
    events: &[u8],
) -> Result<(), Fail> {
    let found = seen_at(alloc, source, number)?.ok_or("no function")?;
    has_counts(rt, &found, counts);
    assert_eq!(rt; found.traps.as_slice(), traps);
    assert_eq!(rt; found.events.as_slice(), events);
    Ok(())
}

#[test]
fn branches(rt: HostRuntime) -> Result<(), Fail> {
    let alloc = rt.alloc();
    let events = b"..BKB..O.............B..BKBK......O.......OB";
    has(&rt, alloc, arm(), 1, (4, 22, 22, 2), b"..", events)?;
    has(
        &rt,
        alloc,
        cold(),
        0,
        (3, 13, 13, 1),
        b".",
        b"...O....O...B",
    )?;
    has(
        &rt,
        alloc,
        both(),
        1,
        (3, 15, 14, 2),
        b"..",
        b"..BK.O....B...B..BK.....OB..OB",
    )
}

#[test]
fn a_loop(rt: HostRuntime) -> Result<(), Fail> {
    let events =
        b".....O...............K..B.........O...........K..B...............O........B....................OK..B";
    has(
        &rt,
        rt.alloc(),
        looping(),
        0,
        (6, 25, 26, 4),
        b"....",
        events,
    )
}

#[test]
fn globals_and_traps(rt: HostRuntime) -> Result<(), Fail> {
    let alloc = rt.alloc();
    has(
        &rt,
        alloc,
        a_global(),
        1,
        (1, 11, 10, 1),
        b".",
        b"...OK..OBOB",
    )?;
    let events = b"...O.K..BB..B....OK..BB..B.......OBB..B........OB..B........BO..B";
    has(&rt, alloc, mixed(), 0, (2, 13, 13, 5), b"...tt", events)
}

/// A placement has this first invalid occurrence, and its temporary is live at these points.
fn is_placed(
    rt: &impl Abort,
    alloc: Global,
    source: &[u8],
    number: usize,
    e: u32,
    lists: (&[u32], &[u32]),
    invalid: Option<u32>,
    live: &[u8],
) -> Result<(), Fail> {
    let (inserted, kept) = lists;
    let found = placed_at(alloc, source, number, e, inserted, kept)?.ok_or("no expression")?;
    assert!(rt; found.invalid == invalid);
    assert_eq!(rt; found.live.as_slice(), live);
    Ok(())
}

#[test]
fn placements(rt: HostRuntime) -> Result<(), Fail> {
    let alloc = rt.alloc();
    is_placed(
        &rt,
        alloc,
        arm(),
        1,
        1,
        (&[17], &[12]),
        None,
        b".............LL..LLLL.",
    )?;
    is_placed(
        &rt,
        alloc,
        arm(),
        1,
        1,
        (&[], &[12]),
        Some(20),
        b"LLLLLLLLL....LLLLLLLL.",
    )?;
    is_placed(
        &rt,
        alloc,
        cold(),
        0,
        0,
        (&[], &[3]),
        None,
        b"....LLLLL....",
    )?;
    is_placed(
        &rt,
        alloc,
        cold(),
        0,
        0,
        (&[], &[8]),
        Some(3),
        b"LLLL.........",
    )
}
