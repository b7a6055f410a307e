use crate::outcomes::{expect_applied, expect_optimised, expect_same_traps};
use crate::sources::*;
use crate::traps::TRAPS;
use std::test::Fail;

#[test]
fn expressions_are_reused_within_blocks(rt: HostRuntime) -> Result<(), Fail> {
    let rows = [
        (AGAIN, ONCE, AGAIN_DONE),
        (TAKEN, ONCE, TAKEN_DONE),
        (GLOBAL, TWICE, GLOBAL_DONE),
        (READS, ONCE, READS_DONE),
        (CALLS, TWICE, CALLS_DONE),
        (LOST, LOST_COUNTS, LOST_DONE),
        (DIVIDES, ONCE, DIVIDES_DONE),
    ];
    for (text, counts, wanted) in rows {
        expect_optimised(&rt, rt.alloc(), text, counts, wanted)?;
    }
    Ok(())
}

#[test]
fn expressions_move_to_where_they_cost_least(rt: HostRuntime) -> Result<(), Fail> {
    let rows = [
        (ARM, ARM_COUNTS, ARM_DONE),
        (LOOP, LOOP_COUNTS, LOOP_DONE),
        (COLD, COLD_COUNTS, COLD_DONE),
        (BOTH, BOTH_COUNTS, BOTH_ABOVE),
        (BOTH, BOTH_EVEN, BOTH),
    ];
    for (text, counts, wanted) in rows {
        expect_optimised(&rt, rt.alloc(), text, counts, wanted)?;
    }
    Ok(())
}

#[test]
fn divisions_that_can_trap_move_where_they_are_inevitable(rt: HostRuntime) -> Result<(), Fail> {
    let rows = [
        (QUOTIENT, ARM_COUNTS, QUOTIENT_DONE),
        (SHOWN, SHOWN_COUNTS, SHOWN),
    ];
    for (text, counts, wanted) in rows {
        expect_optimised(&rt, rt.alloc(), text, counts, wanted)?;
    }
    Ok(())
}

/// Bytes that make the divisors of `TRAPS` zero, or the least value and -1, or neither.
const TRAPPING: &[&[u8]] = &[
    b"00",
    b"A1",
    b"\x80\xff",
    b"\x00\xff",
    b"\x80\x00",
    b"B",
    b"dB",
    b"zC",
    b"\xff1",
    b"",
];

/// Of the five modules of `TRAPS` one, two, all ten, one and one of these runs trap.
#[test]
fn divisions_trap_where_they_did(rt: HostRuntime) -> Result<(), Fail> {
    let trapped = expect_same_traps(&rt, rt.alloc(), TRAPS, TRAPPING)?;
    assert_eq!(rt; trapped, 15);
    Ok(())
}

#[test]
fn placements_are_applied(rt: HostRuntime) -> Result<(), Fail> {
    let alloc = rt.alloc();
    expect_applied(
        &rt,
        alloc,
        ARM,
        &[&[(&[], &[7]), (&[17], &[12])]],
        Some(ARM_DONE),
    )?;
    expect_applied(
        &rt,
        alloc,
        BOTH,
        &[&[(&[], &[5]), (&[6, 7], &[])]],
        Some(BOTH_ON_SLOTS),
    )?;
    expect_applied(
        &rt,
        alloc,
        BOTH,
        &[&[(&[], &[5]), (&[5], &[])]],
        Some(BOTH_ABOVE),
    )?;
    expect_applied(&rt, alloc, COLD, &[&[(&[], &[3])]], Some(COLD_DONE))
}

#[test]
fn edges_of_each_kind(rt: HostRuntime) -> Result<(), Fail> {
    let alloc = rt.alloc();
    let kept: &[(&[u32], &[u32])] = &[(&[], &[5]), (&[], &[9]), (&[2], &[]), (&[], &[20])];
    expect_applied(&rt, alloc, LOOP, &[kept], Some(LOOP_DONE))?;
    expect_applied(
        &rt,
        alloc,
        TWO_SLOTS,
        &[&[(&[], &[5]), (&[6, 7], &[])]],
        Some(TWO_SLOTS_DONE),
    )?;
    expect_applied(
        &rt,
        alloc,
        DEFAULT_ALONE,
        &[&[(&[5], &[])]],
        Some(DEFAULT_ALONE_DONE),
    )?;
    expect_applied(
        &rt,
        alloc,
        ENTRY,
        &[&[(&[0], &[]), (&[0], &[])], &[]],
        Some(ENTRY_DONE),
    )
}

#[test]
fn wrong_placements_are_not_applied(rt: HostRuntime) -> Result<(), Fail> {
    let alloc = rt.alloc();
    expect_applied(&rt, alloc, ARM, &[&[(&[], &[7]), (&[], &[12])]], None)?;
    expect_applied(&rt, alloc, ARM, &[&[(&[], &[7])]], None)?;
    expect_applied(&rt, alloc, ARM, &[], None)?;
    expect_applied(&rt, alloc, COLD, &[&[(&[99], &[3])]], None)
}
