//! The applied module.
ghost use Rattle.std.specs.Prelude.{◌≡◌, ◌<◌, All, IfOk, Some, length, slice_get};
ghost use Rattle.ir_types.specs.Limits.{IsWithinLimits};
ghost use Rattle.ir_machine.specs.Same.{is_defined};
ghost use Rattle.transform.specs.Transformed.{Each, IsSoundIn, IsTransformed, defined_before};
ghost use Rattle.transform.specs.Building.{AreNew, IsNewAt, IsNewFunction, IsReady};

use crate::placed::Placed;
use applied::{applied_same, applied_stands};
use applied_rules::{applied_keeps_rules, small_plans_fit};
use function_text::new_function;
use ir_types::duplicate::Duplicate;
use ir_types::items::Items;
use ir_types::module::Module;
use ir_types::syntax::Function;
use mc_num::NoMemory;
use planning::{changes, plan_is_plan, plan_is_small};
use std::alloc::Global;

/// A function that has blocks, with what is placed in it.
fn changed_function<'a>(
    alloc: Global,
    function: &Function<'a>,
    placed: &Placed<'_, '_>,
) -> Result<Function<'a>, NoMemory>
    requires { IsReady placed.now.table.module_of function.now placed.now }
    ensures { IfOk result (IsNewFunction function.now placed.now) }
{
    plan_is_plan();
    plan_is_small();
    small_plans_fit();
    let changes = changes(
        alloc,
        function,
        &placed.points,
        &placed.table,
        placed.placements.as_slice(),
    )?;
    new_function(alloc, function, &placed.table, &changes)
}

/// What is placed in the function with blocks that comes behind so many others.
fn placed_at<'q, 'm, 'a>(placed: &'q [Placed<'m, 'a>], before: usize) -> &'q Placed<'m, 'a>
    requires { before < length placed.now }
    ensures { slice_get placed.now before ≡ Some result.now }
{
    &placed[before]
}

/// The function of this number with what is placed in it, so many functions with blocks before it.
fn function_at<'a>(
    alloc: Global,
    program: &Module<'a>,
    placed: &[Placed<'_, '_>],
    index: usize,
    before: usize,
) -> Result<Function<'a>, NoMemory>
    requires function { index < length program.now.functions }
    requires before { before ≡ defined_before program.now.functions index }
    requires limits { All IsWithinLimits program.now.functions }
    requires placed { Each (IsSoundIn program.now) program.now.functions placed.now }
    ensures { IfOk result (IsNewAt program.now.functions placed.now index) }
{
    let function = &program.functions()[index];
    if is_defined(function) {
        changed_function(alloc, function, placed_at(placed, before))
    } else {
        Ok(function.duplicate(alloc)?)
    }
}

/// Whether a function has blocks. It takes no memory.
pub fn is_defined(function: &Function<'_>) -> bool
    ensures { result ≡ is_defined function.now.blocks }
{
    function.blocks.len() != 0
}

/// The functions with what is placed in them.
fn new_functions<'a>(
    alloc: Global,
    program: &Module<'a>,
    placed: &[Placed<'_, '_>],
) -> Result<Vec<Function<'a>>, NoMemory>
    requires limits { All IsWithinLimits program.now.functions }
    requires placed { Each (IsSoundIn program.now) program.now.functions placed.now }
    ensures { IfOk result (λ news. AreNew program.now.functions placed.now (length program.now.functions) news.items) }
{
    let mut functions = Vec::new(alloc);
    let mut before = 0;
    for index in 0..program.functions().len() {
        functions.push(function_at(alloc, program, placed, index, before)?)?;
        if is_defined(&program.functions()[index]) {
            before += 1;
        }
    }
    Ok(functions)
}

/// The module with placements applied: what is placed in each of its functions that has blocks, in text order. It does
/// what the module does. `NoMemory` where an allocation was refused.
pub fn apply<'a>(
    alloc: Global,
    program: &Module<'a>,
    placed: &[Placed<'_, '_>],
) -> Result<Module<'a>, NoMemory>
    requires limits { All IsWithinLimits program.now.functions }
    requires placed { Each (IsSoundIn program.now) program.now.functions placed.now }
    ensures { IfOk result (IsTransformed program.now placed.now) }
{
    plan_is_plan();
    plan_is_small();
    small_plans_fit();
    applied_keeps_rules();
    applied_same();
    applied_stands();
    let functions = new_functions(alloc, program, placed)?;
    let globals = Items::copied(alloc, program.globals())?;
    Ok(Module::new(globals, Items::from(functions)))
}
