//! Terminators and blocks.
ghost use Rattle.std.specs.Prelude.{◌≡◌, ◌++◌, [], codes, OnOk};
ghost use Rattle.std.specs.Option.{option_map_or};
ghost use Rattle.mc_num.specs.declared.op.Width.TheVariants.{I1};
ghost use Rattle.std.specs.List.{flat_map};
ghost use Rattle.ir_printer.specs.Text.{typed_text, label_text, case_text, term_text, alloca_line, instr_line, term_line, block_text, blocks_text};

use crate::growing::Text;
use crate::instrs::{put_alloca, put_instr};
use crate::spelling::name_to;
use crate::values::{put_constant, put_label, put_typed};
use crate::words::width_text;
use ir_types::module::Module;
use ir_types::name::Name;
use ir_types::syntax::{Block, Function, Operand, Terminator};
use mc_host::{Failed, Sink};
use mc_num::Width;

/// A case of a switch, and a space behind it.
fn put_case(
    out: &mut Text,
    function: &Function<'_>,
    width: Width,
    case: (u64, u32),
) -> Result<(), Failed>
    ensures { OnOk result (out.new.written ≡ out.old.written ++ case_text function.now width case) }
{
    out.put(width_text(width))?;
    out.put(b" ")?;
    put_constant(out, width, case.0)?;
    out.put(b", ")?;
    put_label(out, function, case.1)?;
    out.put(b" ")
}

fn put_cases(
    out: &mut Text,
    function: &Function<'_>,
    width: Width,
    cases: &[(u64, u32)],
) -> Result<(), Failed>
    ensures { OnOk result (out.new.written ≡ out.old.written ++ flat_map (case_text function.now width) cases.now) }
{
    for case in cases {
        put_case(out, function, width, *case)?;
    }
    Ok(())
}

fn put_switch(
    out: &mut Text,
    function: &Function<'_>,
    width: Width,
    other: u32,
    cases: &[(u64, u32)],
) -> Result<(), Failed>
    ensures { OnOk result (out.new.written ≡ out.old.written ++ (codes ", " ++ (label_text function.now other ++ (codes " [ " ++ (flat_map (case_text function.now width) cases.now ++ codes "]"))))) }
{
    out.put(b", ")?;
    put_label(out, function, other)?;
    out.put(b" [ ")?;
    put_cases(out, function, width, cases)?;
    out.put(b"]")
}

fn put_returned(
    out: &mut Text,
    function: &Function<'_>,
    block: &Block<'_>,
    value: Operand,
) -> Result<(), Failed>
    ensures { OnOk result (out.new.written ≡ out.old.written ++ option_map_or (λ w. typed_text function.now block.now w value) function.now.ret []) }
{
    match function.ret {
        Some(width) => put_typed(out, function, block, width, value),
        None => Ok(()),
    }
}

fn put_branch(
    out: &mut Text,
    function: &Function<'_>,
    block: &Block<'_>,
    condition: Operand,
    one: u32,
    other: u32,
) -> Result<(), Failed>
    ensures { OnOk result (out.new.written ≡ out.old.written ++ (typed_text function.now block.now I1 condition ++ (codes ", " ++ (label_text function.now one ++ (codes ", " ++ label_text function.now other))))) }
{
    put_typed(out, function, block, Width::I1, condition)?;
    out.put(b", ")?;
    put_label(out, function, one)?;
    out.put(b", ")?;
    put_label(out, function, other)
}

fn put_term(out: &mut Text, function: &Function<'_>, block: &Block<'_>) -> Result<(), Failed>
    ensures { OnOk result (out.new.written ≡ out.old.written ++ term_text function.now block.now block.now.term) }
{
    match &block.term {
        Terminator::Return(None) => out.put(b"ret void"),
        Terminator::Return(Some(value)) => {
            out.put(b"ret ")?;
            put_returned(out, function, block, *value)
        }
        Terminator::Jump(target) => {
            out.put(b"br ")?;
            put_label(out, function, *target)
        }
        Terminator::Branch(condition, one, other) => {
            out.put(b"br ")?;
            put_branch(out, function, block, *condition, *one, *other)
        }
        Terminator::Switch(width, value, other, cases) => {
            out.put(b"switch ")?;
            put_typed(out, function, block, *width, *value)?;
            put_switch(out, function, *width, *other, cases.as_slice())
        }
        Terminator::Unreachable => out.put(b"unreachable"),
    }
}

fn put_term_line(out: &mut Text, function: &Function<'_>, block: &Block<'_>) -> Result<(), Failed>
    ensures { OnOk result (out.new.written ≡ out.old.written ++ term_line function.now block.now) }
{
    out.put(b"  ")?;
    put_term(out, function, block)?;
    out.put(b"\n")
}

fn put_allocas(out: &mut Text, variables: &[(Width, Name<'_>)]) -> Result<(), Failed>
    ensures { OnOk result (out.new.written ≡ out.old.written ++ flat_map alloca_line variables.now) }
{
    for variable in variables {
        put_alloca(out, variable)?;
    }
    Ok(())
}

fn put_instrs(
    out: &mut Text,
    program: &Module<'_>,
    function: &Function<'_>,
    block: &Block<'_>,
) -> Result<(), Failed>
    ensures { OnOk result (out.new.written ≡ out.old.written ++ flat_map (instr_line program.now function.now block.now) block.now.instrs) }
{
    for instr in block.instrs.as_slice() {
        put_instr(out, program, function, block, instr)?;
    }
    Ok(())
}

/// A block with the lines of these variables behind its label.
fn put_block(
    out: &mut Text,
    program: &Module<'_>,
    function: &Function<'_>,
    variables: &[(Width, Name<'_>)],
    block: &Block<'_>,
) -> Result<(), Failed>
    ensures { OnOk result (out.new.written ≡ out.old.written ++ block_text program.now function.now variables.now block.now) }
{
    name_to(&block.name, out)?;
    out.put(b":\n")?;
    put_allocas(out, variables)?;
    put_instrs(out, program, function, block)?;
    put_term_line(out, function, block)
}

fn put_later_blocks(
    out: &mut Text,
    program: &Module<'_>,
    function: &Function<'_>,
    blocks: &[Block<'_>],
) -> Result<(), Failed>
    ensures { OnOk result (out.new.written ≡ out.old.written ++ flat_map (block_text program.now function.now []) blocks.now) }
{
    for block in blocks {
        put_block(out, program, function, &[], block)?;
    }
    Ok(())
}

/// The blocks of a function, with its variables in the first.
pub(crate) fn put_blocks(
    out: &mut Text,
    program: &Module<'_>,
    function: &Function<'_>,
    blocks: &[Block<'_>],
) -> Result<(), Failed>
    ensures { OnOk result (out.new.written ≡ out.old.written ++ blocks_text program.now function.now blocks.now) }
{
    match blocks {
        [entry, later @ ..] => {
            put_block(out, program, function, function.vars.as_slice(), entry)?;
            put_later_blocks(out, program, function, later)
        }
        [] => Ok(()),
    }
}
