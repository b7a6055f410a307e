//! The lines of a text as those of a module.
ghost use Rattle.std.specs.Prelude.{◌≡◌, ◌≢◌, ◌≤◌, ◌^◌, ◌∷◌, ℕ, List, Some, IfOk, IfErr, MatchOption, length, map, slice_get};
ghost use Rattle.profile.specs.declared.lines.Line.TheVariants.{Function, Block};
ghost use Rattle.profile.specs.Counts.{HasShape};
ghost use Rattle.profile.specs.Text.{lines};
ghost use Rattle.profile.specs.Reading.{outline, FunctionLine, BlockLine, block_outlines, HasLines, Refuses};
ghost use Rattle.profile.specs.Shapes.{FailsAt, AreBlocks, AreFunction};

use crate::counts::FnCounts;
use crate::lines::Line;
use crate::reading::ProfileError;
use flow_graph::slots_len;
use ir_types::items::Items;
use ir_types::module::Module;
use ir_types::syntax;
use std::alloc::Global;

/// The entries that the line at `at` says, if it is the line of the function of this number.
fn entry_at(read: &[Line], at: usize, number: usize) -> Option<u64>
    ensures { MatchOption result (slice_get (map outline read.now) at ≢ Some (FunctionLine number)) (λ n. slice_get read.now at ≡ Some (Function number n)) }
{
    match read.get(at) {
        Some(Line::Function(function, entry)) if *function == number as u64 => Some(*entry),
        _ => None,
    }
}

/// The counts that the line at `at` says, if it is the line of the block of this number with so many slots.
fn counts_at<'a>(read: &'a [Line], at: usize, number: usize, width: usize) -> Option<&'a [u64]>
    ensures { MatchOption result (slice_get (map outline read.now) at ≢ Some (BlockLine number width)) (λ ns. (slice_get read.now at ≡ Some (Block number ns.now)) × (length ns.now ≡ width)) }
{
    match read.get(at) {
        Some(Line::Block(block, counts)) if *block == number as u64 && counts.len() == width => {
            Some(counts.as_slice())
        }
        _ => None,
    }
}

/// The counts that the lines from `at` on say of the slots of these blocks.
fn block_counts(
    alloc: Global,
    read: &[Line],
    at: usize,
    blocks: &[syntax::Block<'_>],
) -> Result<Items<u64>, ProfileError>
    requires few { length read.now ≤ 2 ^ 26 }
    requires inside { at ≤ length read.now }
    ensures ok { IfOk result (AreBlocks blocks.now read.now at) }
    ensures err { IfErr result (FailsAt (block_outlines 0 blocks.now) (map outline read.now) at) }
{
    let mut counts = Vec::new(alloc);
    for (index, block) in blocks.iter().enumerate() {
        match counts_at(read, at + index, index, slots_len(&block.term)) {
            Some(own) => counts.extend_from_slice(own)?,
            None => return Err(ProfileError::Shape((at + index) as u32 + 2)),
        }
    }
    Ok(Items::from(counts))
}

/// The counts that the lines from `at` on say of a function.
fn function_counts(
    alloc: Global,
    read: &[Line],
    at: usize,
    number: usize,
    function: &syntax::Function<'_>,
) -> Result<FnCounts, ProfileError>
    requires few { length read.now ≤ 2 ^ 26 }
    requires inside { at ≤ length read.now }
    ensures ok { IfOk result (AreFunction function.now number read.now at) }
    ensures err { IfErr result (FailsAt (FunctionLine number ∷ block_outlines 0 function.now.blocks) (map outline read.now) at) }
{
    let Some(entry) = entry_at(read, at, number) else {
        return Err(ProfileError::Shape(at as u32 + 2));
    };
    let slots = block_counts(alloc, read, at + 1, function.blocks.as_slice())?;
    Ok(FnCounts { entry, slots })
}

/// The counts that the lines of a text say, if they are the lines of the module.
pub(crate) fn read_counts(
    alloc: Global,
    program: &Module<'_>,
    read: &[Line],
) -> Result<Items<FnCounts>, ProfileError>
    requires few { length read.now ≤ 2 ^ 26 }
    ensures shape { IfOk result (HasShape program.now) }
    ensures same { IfOk result (λ counts. read.now ≡ lines program.now counts) }
    ensures err { IfErr result (λ e. (bytes : List ℕ) → HasLines bytes read.now → Refuses program.now bytes e) }
{
    let mut counts = Items::new(alloc);
    let mut at = 0;
    for function in program.functions() {
        if !function.blocks.as_slice().is_empty() {
            let own = function_counts(alloc, read, at, counts.len(), function)?;
            counts.push(own)?;
            at += 1 + function.blocks.len();
        }
    }
    if at < read.len() {
        return Err(ProfileError::Shape(at as u32 + 2));
    }
    Ok(counts)
}
