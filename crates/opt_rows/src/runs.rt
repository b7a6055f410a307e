//! How modules run.

use interp::{RunEnd, run};
use ir_types::module::Module;
use mc_host::{MemSink, MemSource};
use mc_num::{NoMemory, Trap};
use std::alloc::Global;
use std::process::Abort;
use std::test::Fail;

fn name_of(end: &RunEnd) -> &'static str {
    match end {
        RunEnd::Returned(_, _) => "returned",
        RunEnd::Trapped(Trap::DivZero) => "division by zero",
        RunEnd::Trapped(Trap::DivOverflow) => "division of the least value by -1",
        RunEnd::Trapped(_) => "another trap",
        RunEnd::StepLimit => "step limit",
        RunEnd::ReadFault => "read fault",
        RunEnd::WriteFault => "write fault",
        RunEnd::NoMain => "no main",
    }
}

fn value_of(end: &RunEnd) -> Option<u64> {
    match end {
        RunEnd::Returned(value, _) => *value,
        _ => None,
    }
}

fn ran(alloc: Global, program: &Module<'_>, bytes: &[u8]) -> Result<(RunEnd, MemSink), NoMemory> {
    let mut input = MemSource::new(bytes.to_vec(alloc)?, Vec::new(alloc));
    let mut out = MemSink::new(alloc, 100, Vec::new(alloc))?;
    let end = run(alloc, program, 100_000, &mut input, &mut out)?;
    Ok((end, out))
}

/// Expects that two modules, run on some bytes, return the same value or end by the same cause, and show the same. Gives
/// the cause.
pub(crate) fn expect_same_run(
    rt: &impl Abort,
    alloc: Global,
    old: &Module<'_>,
    new: &Module<'_>,
    bytes: &[u8],
) -> Result<&'static str, Fail> {
    let (wanted, shown) = ran(alloc, old, bytes)?;
    let (end, written) = ran(alloc, new, bytes)?;
    assert_eq!(rt; name_of(&end), name_of(&wanted));
    assert!(rt; value_of(&end) == value_of(&wanted));
    assert_eq!(rt; written.written(), shown.written());
    Ok(name_of(&wanted))
}
