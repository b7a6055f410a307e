//! What becomes of modules.

use crate::checking::checked_apply;
use crate::runs::expect_same_run;
use crate::zeros::never_run;
use ir_printer::print;
use ir_reader::read;
use ir_types::module::Module;
use optimise::optimise;
use profile::read_profile;
use std::alloc::Global;
use std::process::Abort;
use std::test::Fail;

/// Inputs that take the branches of the modules.
const INPUTS: [&[u8]; 4] = [b"AB", b"BA", b"", b"C\0"];

/// Expects that a module has this text, and does on each input what the old one does.
fn expect_module(
    rt: &impl Abort,
    alloc: Global,
    old: &Module<'_>,
    new: &Module<'_>,
    wanted: &str,
) -> Result<(), Fail> {
    let text = print(alloc, new)?;
    let text = String::from_utf8_lossy(alloc, &text)?;
    assert_eq!(rt; text.as_str(), wanted);
    for bytes in INPUTS {
        expect_same_run(rt, alloc, old, new, bytes)?;
    }
    Ok(())
}

/// Expects that a text is optimised to this by these counts.
pub(crate) fn expect_optimised(
    rt: &impl Abort,
    alloc: Global,
    text: &str,
    counts: &str,
    wanted: &str,
) -> Result<(), Fail> {
    let source = text.as_bytes();
    assert!(rt; source.len() < 2000 && counts.len() < 2000);
    let program = read(alloc, source)?;
    let profile = read_profile(alloc, counts.as_bytes(), &program)?;
    let optimised = optimise(alloc, &program, &profile)?;
    expect_module(rt, alloc, &program, &optimised.module, wanted)
}

/// Expects that a module, optimised by the profile of one that was never run, ends and shows on each of these inputs what
/// it did. Gives how many of the runs trapped.
fn traps_of(rt: &impl Abort, alloc: Global, text: &str, inputs: &[&[u8]]) -> Result<usize, Fail> {
    let source = text.as_bytes();
    assert!(rt; source.len() < 2000);
    let program = read(alloc, source)?;
    let counts = never_run(alloc, &program)?;
    assert!(rt; counts.len() < 2000);
    let profile = read_profile(alloc, counts.as_bytes(), &program)?;
    let optimised = optimise(alloc, &program, &profile)?;
    let mut trapped: usize = 0;
    for bytes in inputs {
        let end = expect_same_run(rt, alloc, &program, &optimised.module, bytes)?;
        trapped = trapped.saturating_add(usize::from(end.starts_with("division")));
    }
    Ok(trapped)
}

/// Expects of each module of a table what `traps_of` says, and gives how many of all the runs trapped.
pub(crate) fn expect_same_traps(
    rt: &impl Abort,
    alloc: Global,
    table: &str,
    inputs: &[&[u8]],
) -> Result<usize, Fail> {
    let mut trapped: usize = 0;
    for text in table.split("====\n") {
        trapped = trapped.saturating_add(traps_of(rt, alloc, text, inputs)?);
    }
    Ok(trapped)
}

/// Expects that a text with these placements applied becomes this, or that they are not applied.
pub(crate) fn expect_applied(
    rt: &impl Abort,
    alloc: Global,
    text: &str,
    lists: &[&[(&[u32], &[u32])]],
    wanted: Option<&str>,
) -> Result<(), Fail> {
    let source = text.as_bytes();
    assert!(rt; source.len() < 2000);
    let program = read(alloc, source)?;
    match (checked_apply(alloc, &program, lists)?, wanted) {
        (Some(applied), Some(wanted)) => expect_module(rt, alloc, &program, &applied, wanted),
        (applied, wanted) => {
            assert!(rt; applied.is_none() && wanted.is_none());
            Ok(())
        }
    }
}
