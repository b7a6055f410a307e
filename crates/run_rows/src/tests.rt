//! Runs of small modules, with ample memory.

use interp::{RunEnd, run};
use ir_reader::read;
use mc_host::{MemSink, MemSource};
use mc_num::Trap;
use std::alloc::Global;
use std::process::Abort;
use std::test::Fail;

// It reads two bytes, and where the first is an A adds them twice.
const SUMS: &[u8] = b"declare i32 @getchar()

define i32 @main() {
entry:
  %a = alloca i32
  %b = alloca i32
  %s = alloca i32
  %g = call i32 @getchar()
  store i32 %g, ptr %a
  %h = call i32 @getchar()
  store i32 %h, ptr %b
  %g1 = load i32, ptr %a
  %c = icmp eq i32 %g1, 65
  br i1 %c, label %left, label %right
left:
  %x1 = load i32, ptr %a
  %x2 = load i32, ptr %b
  %x = add i32 %x1, %x2
  store i32 %x, ptr %s
  br label %join
right:
  br label %join
join:
  %y1 = load i32, ptr %a
  %y2 = load i32, ptr %b
  %y = add i32 %y1, %y2
  ret i32 %y
}
";

const ENDLESS: &[u8] = b"define void @main() { entry: br label %l l: br label %l }";

// It shows an A, and traps.
const TRAPS: &[u8] =
    b"declare i32 @putchar(i32) define i32 @main() { %1 = call i32 @putchar(i32 65) %2 = udiv i32 1, 0 ret i32 0 }";

const NO_MAIN: &[u8] = b"define i32 @main(i32 %x) { ret i32 %x }";

/// A text that is run for at most so many steps on an input, whose calls with these numbers fail, with room for so many
/// bytes of output.
#[derive(Clone, Copy)]
struct Row {
    text: &'static [u8],
    limit: u64,
    bytes: &'static [u8],
    failing: &'static [u64],
    room: usize,
}

fn run_row(rt: &impl Abort, alloc: Global, row: &Row) -> Result<(RunEnd, MemSink), Fail> {
    assert!(rt; row.text.len() < 1000 && row.limit < 1000);
    let program = read(alloc, row.text)?;
    let mut input = MemSource::new(row.bytes.to_vec(alloc)?, row.failing.to_vec(alloc)?);
    let mut out = MemSink::new(alloc, row.room, Vec::new(alloc))?;
    let end = run(alloc, &program, row.limit, &mut input, &mut out)?;
    Ok((end, out))
}

fn name_of(end: &RunEnd) -> &'static str {
    match end {
        RunEnd::Returned(_, _) => "returned",
        RunEnd::Trapped(Trap::DivZero) => "division by zero",
        RunEnd::Trapped(_) => "another trap",
        RunEnd::StepLimit => "step limit",
        RunEnd::ReadFault => "read fault",
        RunEnd::WriteFault => "write fault",
        RunEnd::NoMain => "no main",
    }
}

// Runs a row, and compares how it ends and what was put.
fn expect_end(
    rt: &impl Abort,
    alloc: Global,
    row: &Row,
    name: &str,
    written: &[u8],
) -> Result<(), Fail> {
    let (end, out) = run_row(rt, alloc, row)?;
    assert_eq!(rt; name_of(&end), name);
    assert_eq!(rt; out.written(), written);
    Ok(())
}

const SUMS_OF_TWO: Row = Row {
    text: SUMS,
    limit: 16,
    bytes: b"AB",
    failing: &[],
    room: 0,
};

#[test]
fn a_run_within_its_limit_returns_with_its_counts(rt: HostRuntime) -> Result<(), Fail> {
    let (end, _) = run_row(&rt, rt.alloc(), &SUMS_OF_TWO)?;
    match end {
        RunEnd::Returned(value, profile) => {
            assert_eq!(rt; value, Some(131));
            for counts in profile.functions.as_slice() {
                assert_eq!(rt; counts.entry, 1);
                assert_eq!(rt; counts.slots.as_slice(), [1, 0, 1, 0].as_slice());
            }
            assert_eq!(rt; profile.functions.len(), 1);
        }
        _ => assert!(rt; false),
    }
    Ok(())
}

#[test]
fn other_runs_end_by_their_causes(rt: HostRuntime) -> Result<(), Fail> {
    let alloc = rt.alloc();
    let one_less = Row {
        limit: 15,
        ..SUMS_OF_TWO
    };
    expect_end(&rt, alloc, &one_less, "step limit", b"")?;
    let second_fails = Row {
        failing: &[1],
        ..SUMS_OF_TWO
    };
    expect_end(&rt, alloc, &second_fails, "read fault", b"")?;
    let endless = Row {
        text: ENDLESS,
        limit: 10,
        ..SUMS_OF_TWO
    };
    expect_end(&rt, alloc, &endless, "step limit", b"")?;
    let traps = Row {
        text: TRAPS,
        room: 1,
        ..SUMS_OF_TWO
    };
    expect_end(&rt, alloc, &traps, "division by zero", b"A")?;
    let no_room = Row {
        text: TRAPS,
        ..SUMS_OF_TWO
    };
    expect_end(&rt, alloc, &no_room, "write fault", b"")?;
    let no_main = Row {
        text: NO_MAIN,
        ..SUMS_OF_TWO
    };
    expect_end(&rt, alloc, &no_main, "no main", b"")
}
