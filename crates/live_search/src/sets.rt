//! Sets of numbers.
ghost use Rattle.std.specs.Prelude.{◌↔◌, ◌≡◌, ℕ, true, IfOk, Contains};

use indexmap::IndexSet;
use mc_num::NoMemory;
use std::alloc::Global;

/// Whether the number is in the set.
pub fn has(set: &IndexSet<usize>, number: usize) -> bool
    ensures { (result ≡ true) ↔ Contains set.now.keys number }
{
    set.contains(&number)
}

/// The set of these numbers.
pub fn set_of(alloc: Global, numbers: &[u32]) -> Result<IndexSet<usize>, NoMemory>
    ensures { IfOk result (λ set. (v : ℕ) → Contains set.keys v ↔ Contains numbers.now v) }
{
    let mut set = IndexSet::new(alloc);
    for number in numbers {
        set.insert(*number as usize)?;
    }
    Ok(set)
}
