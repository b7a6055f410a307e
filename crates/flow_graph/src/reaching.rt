//! The blocks that paths from the entry meet.
ghost use Rattle.std.specs.Prelude.{◌≡◌, [], false, replicate, IfOk, length};
ghost use Rattle.flow_graph.specs.Paths.{AreReached, is_marked};

use ir_types::syntax::{Function, Terminator};
use mc_num::NoMemory;
use std::alloc::Global;

/// The blocks that some path from the entry meets: a mark for each block in text order.
///
/// A search that visits each reached block once. `NoMemory` where an allocation was refused.
pub fn reachable(alloc: Global, function: &Function<'_>) -> Result<Vec<bool>, NoMemory>
    ensures len { IfOk result (λ marks. length marks.items ≡ length function.now.blocks) }
    ensures reached { IfOk result (λ marks. AreReached function.now (is_marked marks.items)) }
{
    let mut search = Search::new(alloc, function.blocks.len())?;
    search.reach(0)?;
    search.visit_all(function)?;
    Ok(search.into_marks())
}

/// Which blocks are known to be reached, and which of them are still to be visited.
#[derive(Drop)]
struct Search {
    marks: Vec<bool>,
    pending: Vec<u32>,
}

impl Search {
    ghost use Rattle.std.specs.Prelude.{◌∷◌};
    ghost use Rattle.std.specs.Prelude.{OnOk, map};
    ghost use Rattle.flow_graph.specs.Slots.{slots_of};
    ghost use Rattle.flow_graph.specs.Searching.{Reaches, Searching};

    fn new(alloc: Global, blocks: usize) -> Result<Search, NoMemory>
        ensures marks { IfOk result (λ s. s.marks.items ≡ replicate blocks false) }
        ensures pending { IfOk result (λ s. s.pending.items ≡ []) }
    {
        Ok(Search {
            marks: vec![in alloc; false; blocks]?,
            pending: Vec::new(alloc),
        })
    }

    fn into_marks(self) -> Vec<bool>
        ensures { result ≡ self.marks }
    {
        let Search { marks, pending: _ } = self;
        marks
    }

    /// Marks a block and notes that it is to be visited, if there is such a block that isn't marked yet.
    fn reach(&mut self, block: u32) -> Result<(), NoMemory>
        ensures { OnOk result (Reaches (block ∷ []) self.old self.new) }
    {
        let index = block as usize;
        if index < self.marks.len() && !self.marks[index] {
            self.marks[index] = true;
            self.pending.push(block)?;
        }
        Ok(())
    }

    fn reach_cases(&mut self, cases: &[(u64, u32)]) -> Result<(), NoMemory>
        ensures { OnOk result (Reaches (map (λ c. c.1) cases.now) self.old self.new) }
    {
        for (_, block) in cases {
            self.reach(*block)?;
        }
        Ok(())
    }

    /// Marks what the slots of a terminator lead to.
    fn reach_slots(&mut self, term: &Terminator) -> Result<(), NoMemory>
        ensures { OnOk result (Reaches (slots_of term.now) self.old self.new) }
    {
        match term {
            Terminator::Return(_) | Terminator::Unreachable => Ok(()),
            Terminator::Jump(block) => self.reach(*block),
            Terminator::Branch(_, one, other) => {
                self.reach(*one)?;
                self.reach(*other)
            }
            Terminator::Switch(_, _, other, cases) => {
                self.reach(*other)?;
                self.reach_cases(cases.as_slice())
            }
        }
    }

    /// Visits the blocks that are to be visited, until there are none.
    fn visit_all(&mut self, function: &Function<'_>) -> Result<(), NoMemory>
        requires { Searching function.now self.old }
        ensures len { OnOk result (length self.new.marks.items ≡ length function.now.blocks) }
        ensures reached { OnOk result (AreReached function.now (is_marked self.new.marks.items)) }
    {
        let blocks = function.blocks.as_slice();
        while let Some(block) = self.pending.pop() {
            self.reach_slots(&blocks[block as usize].term)?;
        }
        Ok(())
    }
}
