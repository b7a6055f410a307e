//! The slots of a terminator.
ghost use Rattle.std.specs.Prelude.{◌≡◌, ◌<◌, ◌+◌, ◌-◌, ◌^◌, Some, length, min, slice_get};
ghost use Rattle.flow_graph.specs.Slots.{slots_of};

use ir_types::syntax::Terminator;

/// How many slots a terminator has: none of a return or `unreachable`, one of a jump, two of a branch, and one more
/// than it has cases of a switch. More than 2^32 - 1, which no module has, count as that many.
pub fn slot_count(term: &Terminator) -> u32
    ensures { result ≡ min (length (slots_of term.now)) (2 ^ 32 - 1) }
{
    match term {
        Terminator::Return(_) | Terminator::Unreachable => 0,
        Terminator::Jump(_) => 1,
        Terminator::Branch(..) => 2,
        Terminator::Switch(_, _, _, cases) => u32::try_from(cases.len())
            .unwrap_or(u32::MAX)
            .saturating_add(1),
    }
}

/// How many slots a terminator has.
pub fn slots_len(term: &Terminator) -> usize
    ensures { result ≡ length (slots_of term.now) }
{
    match term {
        Terminator::Return(_) | Terminator::Unreachable => 0,
        Terminator::Jump(_) => 1,
        Terminator::Branch(..) => 2,
        Terminator::Switch(_, _, _, cases) => 1 + cases.as_slice().len(),
    }
}

/// The block that the slot at `index` leads to, counted from 0 as by `target`; `None` behind the last.
pub fn slot_target(term: &Terminator, index: usize) -> Option<u32>
    ensures { result ≡ slice_get (slots_of term.now) index }
{
    match term {
        Terminator::Return(_) | Terminator::Unreachable => None,
        Terminator::Jump(block) => (index == 0).then_some(*block),
        Terminator::Branch(_, one, other) => match index {
            0 => Some(*one),
            1 => Some(*other),
            _ => None,
        },
        Terminator::Switch(_, _, other, cases) => match index.checked_sub(1) {
            None => Some(*other),
            Some(case) => cases.get(case).map(|case| case.1),
        },
    }
}

/// The block that a slot leads to: slot 0 of a jump; 0 of 1 and 1 of 0 of a branch; 0 the default of a switch, and
/// then its cases.
pub fn target(term: &Terminator, slot: u32) -> u32
    requires { slot < length (slots_of term.now) }
    ensures { slice_get (slots_of term.now) slot ≡ Some result }
{
    slot_target(term, slot as usize).unwrap()
}
