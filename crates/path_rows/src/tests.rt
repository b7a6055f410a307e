//! Each function of the table.
ghost use Rattle.std.specs.Prelude.{◌<◌, All, IfSome, length};
ghost use Rattle.ir_types.specs.Limits.{IsWithinLimits};
ghost use Rattle.ir_types.specs.WellFormed.{IsFunctionIn};

use crate::comparing::{Difference, compare_function};
use crate::sources::{EXPRESSIONS, FUNCTIONS};
use ir_reader::read;
use ir_types::module::Module;
use ir_types::syntax::Function;
use mc_num::NoMemory;
use std::alloc::Global;
use std::test::Fail;

/// The function of this number, if there is one.
fn function_at<'m, 'a>(module: &'m Module<'a>, number: usize) -> Option<&'m Function<'a>>
    requires { All IsWithinLimits «module».now.functions }
    ensures rules { IfSome result (λ f. IsFunctionIn «module».now f.now) }
    ensures limits { IfSome result (λ f. IsWithinLimits f.now) }
{
    module.functions().get(number)
}

/// What the comparison tells of the function of this number; `None` where there is none, or it has no blocks.
fn compared(
    alloc: Global,
    module: &Module<'_>,
    number: usize,
) -> Result<Option<Result<u32, Difference>>, NoMemory>
    requires { All IsWithinLimits «module».now.functions }
{
    match function_at(module, number) {
        Some(function) if function.blocks.len() != 0 => {
            Ok(Some(compare_function(alloc, module, function)?))
        }
        _ => Ok(None),
    }
}

#[test]
fn calls_tell_what_plain_bodies_do(rt: HostRuntime) -> Result<(), Fail> {
    let module = read(rt.alloc(), FUNCTIONS)?;
    for (number, wanted) in EXPRESSIONS.iter().enumerate() {
        let found = compared(rt.alloc(), &module, number)?;
        assert_eq!(rt; found, Some(Ok(*wanted)), "in function {number}");
    }
    assert!(rt; compared(rt.alloc(), &module, EXPRESSIONS.len())?.is_none());
    Ok(())
}
