//! The points and the table of a function.
ghost use Rattle.std.specs.Prelude.{◌≡◌, ◌<◌, ◌^◌, All, IfOk, length};
ghost use Rattle.ir_types.specs.Limits.{IsWithinLimits};
ghost use Rattle.ir_types.specs.WellFormed.{IsFunctionIn};
ghost use Rattle.checker.specs.Reasons.{IsNumbered};
ghost use Rattle.checker.specs.Numbering.{AreNumberedSoFar};

use expressions::{Table, table};
use ir_types::module::Module;
use ir_types::syntax::Function;
use mc_num::NoMemory;
use point_graph::{Points, points};
use std::alloc::Global;
use transform::is_defined;

/// A function that has blocks, with its points and its table.
#[derive(Drop)]
pub struct Numbered<'m, 'a> {
    pub function: &'m Function<'a>,
    pub points: Points,
    pub table: Table<'m, 'a>,
}

/// A function that has blocks, with its points and its table.
fn numbers_of<'m, 'a>(
    alloc: Global,
    program: &'m Module<'a>,
    function: &'m Function<'a>,
) -> Result<Numbered<'m, 'a>, NoMemory>
    requires defined { 0 < length function.now.blocks }
    requires rules { IsFunctionIn program.now function.now }
    requires limits { IsWithinLimits function.now }
    ensures { IfOk result (IsNumbered program.now function.now) }
{
    let points = points(alloc, function)?;
    let table = table(alloc, program, function, &points)?;
    Ok(Numbered {
        function,
        points,
        table,
    })
}

/// The functions that have blocks, in text order, each with its points and its table.
pub(crate) fn all_numbered<'m, 'a>(
    alloc: Global,
    program: &'m Module<'a>,
) -> Result<Vec<Numbered<'m, 'a>>, NoMemory>
    requires { All IsWithinLimits program.now.functions }
    ensures numbers { IfOk result (λ numbered. AreNumberedSoFar program.now (length program.now.functions) numbered.items) }
    ensures few { IfOk result (λ numbered. length numbered.items < 2 ^ 32) }
{
    let mut numbered = Vec::new(alloc);
    for function in program.functions() {
        if is_defined(function) {
            numbered.push(numbers_of(alloc, program, function)?)?;
        }
    }
    Ok(numbered)
}
