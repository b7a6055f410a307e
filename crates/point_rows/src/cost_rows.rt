//! Placements with what they cost.

use crate::costing::cost_at;
use crate::sources::{arm, both, looping};
use placement::{BASE, weight};
use std::test::Fail;

#[test]
fn weights(rt: HostRuntime) {
    assert_eq!(rt; BASE, 1_048_576);
    assert_eq!(rt; weight(0), 1);
    assert_eq!(rt; weight(1), BASE);
    assert_eq!(rt; weight(u64::MAX), u128::from(u64::MAX) * BASE);
}

fn arm_profile<'a>() -> &'a [u8] {
    b"mcpre-profile 1\nfunc 0 100\nblock 0 90 10\nblock 1 90\nblock 2 10\nblock 3\n"
}

fn both_profile<'a>() -> &'a [u8] {
    b"mcpre-profile 1\nfunc 0 5\nblock 0 0 5\nblock 1\nblock 2\n"
}

fn loop_profile<'a>() -> &'a [u8] {
    b"mcpre-profile 1\nfunc 0 1\nblock 0 1\nblock 1 1000 1\nblock 2 990 10\nblock 3 990\nblock 4 1000\nblock 5\n"
}

#[test]
fn costs(rt: HostRuntime) -> Result<(), Fail> {
    let (arm, arm_counts) = (arm(), arm_profile());
    let (both, both_counts) = (both(), both_profile());
    let (looping, loop_counts) = (looping(), loop_profile());
    // The edges and the points of a placement, and what it costs: on slots, on inside edges, and at points, where a
    // place of count 0 costs 1.
    let rows: [(&[u8], &[u8], &[u32], &[u32], u128); 11] = [
        (both, both_counts, &[6, 7], &[], 5_242_881),
        (both, both_counts, &[5], &[], 5_242_880),
        (both, both_counts, &[6], &[], 1),
        (both, both_counts, &[], &[9, 13], 5_242_881),
        (both, both_counts, &[0], &[0], 10_485_760),
        (both, both_counts, &[], &[], 0),
        (arm, arm_counts, &[17], &[12], 104_857_600),
        (arm, arm_counts, &[], &[12, 20], 199_229_440),
        (looping, loop_counts, &[2], &[], 1_048_576),
        (looping, loop_counts, &[], &[15], 1_038_090_240),
        (looping, loop_counts, &[1, 25], &[24], 3_145_728),
    ];
    for (source, profile, inserted, kept, wanted) in rows {
        let cost = cost_at(rt.alloc(), source, profile, inserted, kept)?;
        assert_eq!(rt; cost.ok_or("no such place")?, wanted, "of {wanted}");
    }
    Ok(())
}
