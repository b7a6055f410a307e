//! The lazy placement of an expression of a text.
ghost use Rattle.std.specs.Prelude.{◌<◌, All, IfSome, length};
ghost use Rattle.ir_types.specs.Limits.{IsWithinLimits};
ghost use Rattle.ir_types.specs.WellFormed.{IsFunctionIn};

use expressions::table;
use ir_reader::read;
use ir_types::module::Module;
use ir_types::syntax::Function;
use lazy_motion::lazy;
use mc_num::NoMemory;
use placement::Placement;
use point_graph::points;
use std::alloc::Global;
use std::test::Fail;

/// The function of this number, if there is one.
fn function_at<'m, 'a>(module: &'m Module<'a>, number: usize) -> Option<&'m Function<'a>>
    requires { All IsWithinLimits «module».now.functions }
    ensures rules { IfSome result (λ f. IsFunctionIn «module».now f.now) }
    ensures limits { IfSome result (λ f. IsWithinLimits f.now) }
{
    module.functions().get(number)
}

fn lazy_in(
    alloc: Global,
    module: &Module<'_>,
    function: &Function<'_>,
    e: u32,
) -> Result<Option<Placement>, NoMemory>
    requires defined { 0 < length function.now.blocks }
    requires rules { IsFunctionIn «module».now function.now }
    requires limits { IsWithinLimits function.now }
{
    let points = points(alloc, function)?;
    let table = table(alloc, module, function, &points)?;
    if e >= table.len() {
        return Ok(None);
    }
    Ok(Some(lazy(alloc, function, &points, &table, e)?))
}

/// The lazy placement of the expression `e` of the function of this number in a text; `None` where there is no such
/// function or expression.
pub fn lazy_at(
    alloc: Global,
    source: &[u8],
    number: usize,
    e: u32,
) -> Result<Option<Placement>, Fail> {
    if source.len() > 1 << 26 {
        return Ok(None);
    }
    let module = read(alloc, source)?;
    match function_at(&module, number) {
        Some(function) if function.blocks.len() != 0 => Ok(lazy_in(alloc, &module, function, e)?),
        _ => Ok(None),
    }
}
