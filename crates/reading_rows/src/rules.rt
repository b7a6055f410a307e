//! Small trees, with what they mean or what is wrong with them.
ghost use Rattle.std.specs.Prelude.{◌≤◌, IfOk};
ghost use Rattle.ir_types.specs.Names.{IsNameText};
ghost use Rattle.ir_types.specs.Size.{function_items, items};
ghost use Rattle.ir_types.specs.Written.{IsSpelledFunction, IsSpelledTree};

use ir_check::{CheckError, check, within_limits};
use ir_types::items::Items;
use ir_types::name::Spelling;
use ir_types::rules::Rule;
use ir_types::span::{At, Span};
use ir_types::tree::{Raw, RawFunction, RawGlobal, RawValue, Ty};
use mc_num::Width;
use std::alloc::{AllocError, Global};
use std::test::Fail;

fn span(start: u32) -> Span {
    Span {
        line: 1,
        start,
        end: start,
    }
}

/// `declare i32 @NAME()`.
fn declaration<'a>(alloc: Global, name: &'a [u8], start: u32) -> RawFunction<'a>
    requires { IsNameText name.now }
    ensures spelled { IsSpelledFunction result }
    ensures few { function_items result ≤ 0 }
{
    RawFunction {
        name: At {
            item: Spelling::new(name),
            span: span(start),
        },
        ret: Ty::Int(Width::I32),
        params: Items::new(alloc),
        blocks: Items::new(alloc),
    }
}

/// `@g = global i8 NUMBER` at 10 and 11, and a declaration.
fn tree<'a>(alloc: Global, name: &'a [u8], start: u32, number: i128) -> Result<Raw<'a>, AllocError>
    requires { IsNameText name.now }
    ensures spelled { IfOk result IsSpelledTree }
    ensures few { IfOk result (λ raw. items raw ≤ 2) }
{
    let mut functions = Items::new(alloc);
    functions.push(declaration(alloc, name, start))?;
    let mut globals = Items::new(alloc);
    globals.push(RawGlobal {
        name: At {
            item: Spelling::new(b"g"),
            span: span(10),
        },
        width: Width::I8,
        value: At {
            item: RawValue::Number(number),
            span: span(11),
        },
    })?;
    Ok(Raw { functions, globals })
}

#[test]
fn gives_the_module(rt: HostRuntime) -> Result<(), Fail> {
    let alloc = rt.alloc();
    let raw = tree(alloc, b"getchar", 0, -1)?;
    let program = check(alloc, &raw)?;
    assert!(rt; within_limits(&program));
    assert_eq!(rt; program.functions().len(), 1);
    assert!(rt; program.functions()[0].name == Spelling::new(b"getchar"));
    assert_eq!(rt; program.globals().len(), 1);
    assert_eq!(rt; program.globals()[0].value, 255);
    Ok(())
}

/// The rule that a tree breaks first, and where its place starts.
fn problem_of(alloc: Global, raw: &Raw<'_>) -> Option<(Rule, u32)>
    requires spelled { IsSpelledTree raw.now }
    requires few { items raw.now ≤ 2 }
{
    match check(alloc, raw) {
        Err(CheckError::Broken(problem)) => Some((problem.rule, problem.span.start)),
        _ => None,
    }
}

#[test]
fn tells_the_first_problem(rt: HostRuntime) -> Result<(), Fail> {
    let alloc = rt.alloc();
    let wide = tree(alloc, b"getchar", 0, 256)?;
    assert!(rt; problem_of(alloc, &wide) == Some((Rule::ConstantRange, 11)));
    let unknown = tree(alloc, b"other", 0, 256)?;
    assert!(rt; problem_of(alloc, &unknown) == Some((Rule::UnknownExternal, 0)));
    let second = tree(alloc, b"g", 20, 255)?;
    assert!(rt; problem_of(alloc, &second) == Some((Rule::Duplicate, 20)));
    let earlier = tree(alloc, b"g", 20, -129)?;
    assert!(rt; problem_of(alloc, &earlier) == Some((Rule::ConstantRange, 11)));
    Ok(())
}
