//! The rules that a tree can break, and what its names can mean.

use crate::span::Span;
use crate::tree::Ty;
use mc_num::Width;

/// A rule of the tree, in the order of the codes E5 to E16. At one place the first of them counts.
#[derive(Clone, Copy, Debug, PartialEq, Eq)]
pub enum Rule {
    /// E5: a use of a name that nothing defines, or of a register at or before its definition in its own block.
    Undefined,
    /// E6: a second definition of a name, or a second case of a value.
    Duplicate,
    /// E7: a written number that isn't the next one.
    BadNumber,
    /// E8: a name of another kind or type than the place asks for, or types that don't fit each other.
    BadType,
    /// E9: a variable whose address is handed to a function.
    Escapes,
    /// E10: a register used in another block than its own.
    CrossBlock,
    /// E11: a label that names the entry block.
    EntryHasPredecessor,
    /// E12: an alloca that isn't in the entry block before all other instructions.
    LateAlloca,
    /// E13: a declaration of another function than `getchar` and `putchar`.
    UnknownExternal,
    /// E14: a literal that its width can't hold.
    ConstantRange,
    /// E15: a function with more instructions, blocks, slots or variables than a function may have.
    Limit,
    /// E16: a phi.
    Phi,
}

/// A rule that is broken, and where.
#[derive(Clone, Copy, Debug, PartialEq, Eq)]
pub struct Problem {
    pub rule: Rule,
    pub span: Span,
}

/// What a name of a function, or of the whole tree, means. All numbers count from 0.
#[derive(Clone, Copy)]
pub enum Meaning {
    /// The function's parameter of this number and width.
    Parameter(u32, Width),
    /// The function's block of this number.
    Block(u32),
    /// What an instruction of a block gives: the number of the block, that of the instruction among those of its block
    /// that are no allocas, and the type, which is `void` where a name is written before a call that gives nothing.
    Register(u32, u32, Ty),
    /// The function's variable of this number and width.
    Variable(u32, Width),
    /// The tree's function of this number.
    Function(u32),
    /// The tree's global of this number and width.
    Global(u32, Width),
}

/// A place of a function: a block, and how many instructions that are no allocas stand before the place in it.
#[derive(Clone, Copy)]
pub struct Here {
    pub block: u32,
    pub instr: u32,
}
