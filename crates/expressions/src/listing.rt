//! How the table of a function is made.
ghost use Rattle.std.specs.Prelude.{◌≡◌, IfOk};
ghost use Rattle.ir_types.specs.WellFormed.{IsFunctionIn};
ghost use Rattle.point_graph.specs.Numbers.{ArePoints};
ghost use Rattle.expressions.specs.Tables.{IsTable};

use crate::tables::Table;
use crate::walk::{Found, walk};
use ir_types::items::Items;
use ir_types::module::Module;
use ir_types::syntax::Function;
use mc_num::NoMemory;
use point_graph::Points;
use std::alloc::Global;

/// The table of the expressions of a function of the module, and of its points. It takes linear time. `NoMemory` where
/// an allocation was refused.
pub fn table<'m, 'a>(
    alloc: Global,
    module: &'m Module<'a>,
    function: &Function<'a>,
    points: &Points,
) -> Result<Table<'m, 'a>, NoMemory>
    requires rules { IsFunctionIn «module».now function.now }
    requires points { ArePoints function.now points.now }
    ensures module_of { IfOk result (λ t. t.module_of ≡ «module».now) }
    ensures table { IfOk result (λ t. IsTable function.now points.now t) }
{
    let found = walk(alloc, module, function, points.blocks.as_slice())?;
    let Found {
        exprs,
        occurring,
        changes: _,
    } = found;
    Ok(Table {
        module,
        exprs,
        occurring: Items::from(occurring),
    })
}
