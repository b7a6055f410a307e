//! The nodes that every path reaches with a value, by a fixed point of flags.
ghost use Rattle.std.specs.Prelude.{◌≡◌, ◌<◌, ◌^◌, ◌↔◌, ℕ, IfOk, map, slice_index_or, vec_len};
ghost use Rattle.flow_paths.specs.Paths.{ArcsWithin, Connects};
ghost use Rattle.flow_paths.specs.Marks.{ReachedInvalid};
ghost use Rattle.flow_paths.specs.Spreads.{IsSet};
ghost use Rattle.local_sets.specs.Heads.{with_points};
ghost use Rattle.local_sets.specs.Passing.{begins, flag_of, leaves, mark_of, passing_laws};

use dataflow::{Digraph, Flag, Transfer, solve};
use flow_paths::Mark;
use mc_num::NoMemory;
use std::alloc::Global;

/// What each node does to a value.
#[derive(Drop)]
struct Passing {
    marks: Vec<Mark>,
}

impl Passing {
    fn leaves(&self, node: u32, there: bool) -> bool
        ensures { result ≡ leaves (mark_of self.now.marks.items node) there }
    {
        match self.marks.get(node as usize) {
            Some(Mark::Kill) => false,
            Some(Mark::Pass) => there,
            Some(Mark::Write) | None => true,
        }
    }
}

impl Transfer<Flag> for Passing {
    ghost Knows = { λ t n x. Unit {0} };

    ghost leaving = { λ t n x. flag_of (leaves (mark_of t.marks.items n) x.set) };

    fn leave(&self, node: u32, entry: &Flag, exit: &mut Flag) -> bool {
        let set = self.leaves(node, entry.set);
        let changed = set != exit.set;
        exit.set = set;
        changed
    }

    ghost laws = { λ t. passing_laws (mark_of t.marks.items) };
}

fn is_behind_start(node: u32) -> bool
    ensures { result ≡ begins node }
{
    match node {
        0 => false,
        _ => true,
    }
}

/// A flag for each node, set but for node 0.
fn start_flags(alloc: Global, nodes: u32) -> Result<Vec<Flag>, NoMemory>
    ensures len { IfOk result (λ list. vec_len list ≡ nodes) }
    ensures flags { IfOk result (λ list. (d : Flag) (n : ℕ) → n < nodes → slice_index_or list.items n d ≡ flag_of (begins n)) }
{
    let mut list = Vec::new(alloc);
    for node in 0..nodes {
        list.push(Flag {
            set: is_behind_start(node),
        })?;
    }
    Ok(list)
}

/// A set flag for each node.
fn set_flags(alloc: Global, nodes: u32) -> Result<Vec<Flag>, NoMemory>
    ensures { IfOk result (λ list. vec_len list ≡ nodes) }
{
    Ok(vec![in alloc; Flag { set: true }; nodes as usize]?)
}

fn bits_of(alloc: Global, flags: &[Flag]) -> Result<Vec<bool>, NoMemory>
    ensures { IfOk result (λ bits. bits.items ≡ map (λ f. f.set) flags.now) }
{
    Ok(flags.iter().map(|flag| flag.set).collect(alloc)?)
}

/// For each node whether every path from node 0 reaches it with a write after the last kill, the node not counted, where
/// only nodes write and kill and paths lead to all of them. It takes linear time.
pub fn on_every_path(
    alloc: Global,
    arcs: Vec<(u32, u32)>,
    marks: Vec<Mark>,
) -> Result<Vec<bool>, NoMemory>
    requires start { 0 < vec_len marks }
    requires numbered { vec_len marks < 2 ^ 32 }
    requires within { ArcsWithin arcs.items (vec_len marks) }
    ensures len { IfOk result (λ bits. vec_len bits ≡ vec_len marks) }
    ensures bits { IfOk result (λ bits. ((w : ℕ) → w < vec_len marks → Connects arcs.items 0 w) → (v : ℕ) → v < vec_len marks
        → IsSet bits.items v ↔ ¬ ReachedInvalid arcs.items (with_points arcs.items marks.items) v) }
{
    let nodes = marks.len() as u32;
    let entry = start_flags(alloc, nodes)?;
    let exit = set_flags(alloc, nodes)?;
    let graph = Digraph { nodes, arcs };
    let passing = Passing { marks };
    let solution = solve(alloc, &graph, &passing, entry, exit)?;
    bits_of(alloc, &solution.entry)
}
