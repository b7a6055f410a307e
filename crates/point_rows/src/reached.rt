//! What is available and wanted at the heads and the terminators of blocks.
ghost use Rattle.std.specs.Prelude.{◌<◌, length};
ghost use Rattle.ir_types.specs.Limits.{IsWithinLimits};
ghost use Rattle.ir_types.specs.WellFormed.{IsFunctionIn};

use crate::seen::function_at;
use crate::sources::arm;
use expressions::table;
use ir_reader::read;
use ir_types::module::Module;
use ir_types::syntax::Function;
use local_sets::{Reach, local_sets, reach};
use mc_num::NoMemory;
use point_graph::points;
use std::alloc::Global;
use std::test::Fail;

/// The flags of the expression `e`; `None` where there is no such expression.
fn reach_in(
    alloc: Global,
    module: &Module<'_>,
    function: &Function<'_>,
    e: u32,
) -> Result<Option<Reach>, NoMemory>
    requires defined { 0 < length function.now.blocks }
    requires rules { IsFunctionIn «module».now function.now }
    requires limits { IsWithinLimits function.now }
{
    let points = points(alloc, function)?;
    let table = table(alloc, module, function, &points)?;
    if e >= table.len() {
        return Ok(None);
    }
    let sets = local_sets(alloc, function, &points, &table, e)?;
    Ok(Some(reach(alloc, function, &points, &sets)?))
}

#[test]
fn an_arm_is_wanted_and_available(rt: HostRuntime) -> Result<(), Fail> {
    let alloc = rt.alloc();
    let text = arm();
    assert!(rt; text.len() <= 1 << 26);
    let module = read(alloc, text)?;
    let function = function_at(&module, 1).ok_or("no function")?;
    assert!(rt; function.blocks.len() != 0);
    let found = reach_in(alloc, &module, function, 1)?.ok_or("no expression")?;
    assert_eq!(rt;
        found.available.as_slice(),
        [false, false, false, true, false, false, false, true].as_slice()
    );
    assert_eq!(rt;
        found.wanted.as_slice(),
        [false, true, true, true, true, true, true, false].as_slice()
    );
    Ok(())
}
