//! Instructions, blocks and functions.
use crate::items::Items;
use crate::name::{Name, Spelling};
use crate::operands::Operands;
use mc_num::{Op, Width};

/// A value that an instruction takes. Its width is the one that the instruction asks for.
#[derive(Clone, Copy, Debug, PartialEq, Eq)]
pub enum Operand {
    /// A constant, below 2^w at a width of w bits.
    Const(u64),
    /// The parameter of this number, counted from 0.
    Param(u32),
    /// The result of the instruction of this number of the same block, counted from 0.
    Reg(u32),
}

impl Default for Operand {
    fn default() -> Operand {
        Operand::Const(0)
    }
}

/// What a load reads and a store writes.
#[derive(Clone, Copy, Debug, PartialEq, Eq, Hash)]
pub enum Variable {
    /// The function's variable of this number, counted from 0.
    Local(u32),
    /// The module's global of this number, counted from 0.
    Global(u32),
}

/// What an instruction does.
#[derive(Drop)]
pub enum Kind {
    /// Reads a variable.
    Load(Variable),
    /// Writes the value into a variable.
    Store(Operand, Variable),
    /// Computes an operation of these operands.
    Compute(Op, Operands),
    /// Calls the module's function of this number, counted from 0, with these arguments.
    Call(u32, Items<Operand>),
}

/// An instruction, with the name of its result, if it gives one.
#[derive(Drop)]
pub struct Instr<'a> {
    pub result: Option<Name<'a>>,
    pub kind: Kind,
}

/// What ends a block. Blocks are numbered from 0 within their function.
#[derive(Drop)]
pub enum Terminator {
    /// Returns a value, or none from a `void` function.
    Return(Option<Operand>),
    /// Goes to a block.
    Jump(u32),
    /// Goes to the first block where the condition is 1, and to the second where it is 0.
    Branch(Operand, u32, u32),
    /// Goes to the block beside the constant that the value of this width is, and to the block before the cases where it is none.
    Switch(Width, Operand, u32, Items<(u64, u32)>),
    /// Is never run.
    Unreachable,
}

/// A basic block. Its allocas are the function's variables, and no instructions.
#[derive(Drop)]
pub struct Block<'a> {
    pub name: Name<'a>,
    pub instrs: Items<Instr<'a>>,
    pub term: Terminator,
}

/// A function; without blocks it is a declaration. It returns `ret`, or nothing where that is `None`.
#[derive(Drop)]
pub struct Function<'a> {
    pub name: Spelling<'a>,
    pub ret: Option<Width>,
    pub params: Items<(Width, Name<'a>)>,
    pub vars: Items<(Width, Name<'a>)>,
    pub blocks: Items<Block<'a>>,
}

/// A global variable with its first value, below 2^w at a width of w bits.
#[derive(Drop)]
pub struct Global<'a> {
    pub name: Spelling<'a>,
    pub width: Width,
    pub value: u64,
}
