//! Printing of a profile.
ghost use Rattle.std.specs.Prelude.{◌≡◌, ◌++◌, ◌∷◌, ℕ, IfOk, OnOk, length, filter};
ghost use Rattle.std.specs.Fmt.{decimal};
ghost use Rattle.std.specs.List.{AllZip, flat_map};
ghost use Rattle.flow_graph.specs.Slots.{slots_from};
ghost use Rattle.profile.specs.declared.lines.Line.TheVariants.{Function, Block};
ghost use Rattle.profile.specs.Counts.{HasSlots, HasShape, is_defined};
ghost use Rattle.profile.specs.Text.{spaced, line_text, block_lines, function_lines, prof_text};

use crate::counts::{FnCounts, Profile};
use flow_graph::slots_len;
use ir_types::module::Module;
use ir_types::syntax;
use itoa::Buffer;
use mc_num::NoMemory;
use std::alloc::Global;

/// A number, behind a space.
fn put_number(out: &mut Vec<u8>, number: u64) -> Result<(), NoMemory>
    ensures { OnOk result (out.new.items ≡ out.old.items ++ (32 ∷ decimal number)) }
{
    let mut digits = Buffer::new();
    out.push(b' ')?;
    out.extend_from_slice(digits.format(number).as_bytes())?;
    Ok(())
}

fn put_numbers(out: &mut Vec<u8>, numbers: &[u64]) -> Result<(), NoMemory>
    ensures { OnOk result (out.new.items ≡ out.old.items ++ spaced numbers.now) }
{
    for number in numbers {
        put_number(out, *number)?;
    }
    Ok(())
}

fn put_function_line(out: &mut Vec<u8>, number: usize, entry: u64) -> Result<(), NoMemory>
    ensures { OnOk result (out.new.items ≡ out.old.items ++ line_text (Function number entry)) }
{
    out.extend_from_slice(b"func")?;
    put_numbers(out, &[number as u64, entry])?;
    out.extend_from_slice(b"\n")?;
    Ok(())
}

fn put_block_line(out: &mut Vec<u8>, number: usize, counts: &[u64]) -> Result<(), NoMemory>
    ensures { OnOk result (out.new.items ≡ out.old.items ++ line_text (Block number counts.now)) }
{
    out.extend_from_slice(b"block")?;
    put_number(out, number as u64)?;
    put_numbers(out, counts)?;
    out.extend_from_slice(b"\n")?;
    Ok(())
}

/// The lines of these blocks, with the counts of their slots one after another.
fn put_blocks(
    out: &mut Vec<u8>,
    blocks: &[syntax::Block<'_>],
    counts: &[u64],
) -> Result<(), NoMemory>
    requires { length counts.now ≡ length (slots_from 0 blocks.now) }
    ensures { OnOk result (out.new.items ≡ out.old.items ++ flat_map line_text (block_lines 0 blocks.now counts.now)) }
{
    let mut rest = counts;
    for (number, block) in blocks.iter().enumerate() {
        let (own, later) = rest.split_at(slots_len(&block.term));
        put_block_line(out, number, own)?;
        rest = later;
    }
    Ok(())
}

fn put_function(
    out: &mut Vec<u8>,
    number: usize,
    function: &syntax::Function<'_>,
    counts: &FnCounts,
) -> Result<(), NoMemory>
    requires { HasSlots function.now counts.now }
    ensures { OnOk result (out.new.items ≡ out.old.items ++ flat_map line_text (Function number counts.now.entry ∷ block_lines 0 function.now.blocks counts.now.slots)) }
{
    put_function_line(out, number, counts.entry)?;
    put_blocks(out, function.blocks.as_slice(), counts.slots.as_slice())
}

/// The lines of the functions that have blocks.
fn put_functions(
    out: &mut Vec<u8>,
    functions: &[syntax::Function<'_>],
    counts: &[FnCounts],
) -> Result<(), NoMemory>
    requires { AllZip HasSlots (filter is_defined functions.now) counts.now }
    ensures { OnOk result (out.new.items ≡ out.old.items ++ flat_map line_text (function_lines 0 (filter is_defined functions.now) counts.now)) }
{
    let mut number = 0;
    for function in functions {
        if !function.blocks.as_slice().is_empty() {
            put_function(out, number, function, &counts[number])?;
            number += 1;
        }
    }
    Ok(())
}

/// The text of a profile: a line for each function that has blocks, and behind it one for each of its blocks.
///
/// `NoMemory` where an allocation was refused.
pub fn print_profile(
    alloc: Global,
    program: &Module<'_>,
    profile: &Profile,
) -> Result<Vec<u8>, NoMemory>
    requires { HasShape program.now profile.now.functions }
    ensures { IfOk result (λ text. text.items ≡ prof_text program.now profile.now.functions) }
{
    let mut out = Vec::from_slice(alloc, b"mcpre-profile 1\n")?;
    put_functions(&mut out, program.functions(), profile.functions.as_slice())?;
    Ok(out)
}
