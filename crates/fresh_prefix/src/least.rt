//! The least number that a list doesn't have.
ghost use Rattle.std.specs.Prelude.{◌≡◌, false, IfOk, not, position, replicate};
ghost use Rattle.fresh_prefix.specs.Missing.{AreMarks, IsLeastMissing};

use mc_num::NoMemory;
use std::alloc::Global;

/// `count` bits that aren't set.
fn clear_bits(alloc: Global, count: usize) -> Result<Vec<bool>, NoMemory>
    ensures { IfOk result (λ bits. bits.items ≡ replicate count false) }
{
    Ok(vec![in alloc; false; count]?)
}

/// For each number below `count`, whether it is listed.
fn marks_below(alloc: Global, count: usize, numbers: &[u32]) -> Result<Vec<bool>, NoMemory>
    ensures { IfOk result (λ marks. AreMarks count numbers.now marks.items) }
{
    let mut marks = clear_bits(alloc, count)?;
    for number in numbers {
        let index = *number as usize;
        if index < count {
            marks[index] = true;
        }
    }
    Ok(marks)
}

/// The first index without a mark.
fn first_clear(marks: &[bool]) -> Option<usize>
    ensures { result ≡ position (λ mark. not mark) marks.now }
{
    marks.iter().position(|mark| !*mark)
}

/// The least number that isn't listed. It takes linear time. `NoMemory` where an allocation was refused.
pub fn least_missing(alloc: Global, numbers: &[u32]) -> Result<usize, NoMemory>
    ensures { IfOk result (IsLeastMissing numbers.now) }
{
    let count = numbers.len().checked_add(1).ok_or(NoMemory)?;
    let marks = marks_below(alloc, count, numbers)?;
    Ok(first_clear(&marks).unwrap())
}
