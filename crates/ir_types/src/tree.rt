//! The tree that a text spells, with the place of each part that a refusal can name.

use crate::items::Items;
use crate::name::{Name, Spelling};
use crate::span::{At, Span};
use mc_num::{Bin, Cast, Pred, Width};

/// A written type.
#[derive(Clone, Copy)]
pub enum Ty {
    Int(Width),
    Void,
    Ptr,
}

/// What is written where a variable is due.
#[derive(Drop)]
pub enum Address<'a> {
    Local(Name<'a>),
    Global(Spelling<'a>),
}

/// What is written where a value is due.
#[derive(Drop)]
pub enum RawValue<'a> {
    Local(Name<'a>),
    /// A literal that 128 bits with a sign hold.
    Number(i128),
    /// A wider literal.
    Wide,
    Bool(bool),
    /// `undef` or `poison`.
    Zero,
}

/// An argument of a call with its written type.
#[derive(Drop)]
pub struct RawArg<'a> {
    pub ty: Ty,
    pub value: At<RawValue<'a>>,
}

/// What an instruction does, as it is written.
#[derive(Drop)]
pub enum RawKind<'a> {
    Alloca(Width),
    Load(Width, At<Address<'a>>),
    Store(Width, At<RawValue<'a>>, At<Address<'a>>),
    Bin(Bin, Width, At<RawValue<'a>>, At<RawValue<'a>>),
    Icmp(Pred, Width, At<RawValue<'a>>, At<RawValue<'a>>),
    Cast(Cast, Width, At<RawValue<'a>>, At<Width>),
    Select(At<RawValue<'a>>, Width, At<RawValue<'a>>, At<Width>, At<RawValue<'a>>),
    Call(Ty, At<Spelling<'a>>, Items<RawArg<'a>>),
    Phi(Width, Items<(At<RawValue<'a>>, At<Name<'a>>)>),
}

/// An instruction with the name written for its result, if any, and the place of its word.
#[derive(Drop)]
pub struct RawInstr<'a> {
    pub result: Option<At<Name<'a>>>,
    pub word: Span,
    pub kind: RawKind<'a>,
}

/// A case of a switch.
#[derive(Drop)]
pub struct RawCase<'a> {
    pub width: At<Width>,
    pub value: At<RawValue<'a>>,
    pub label: At<Name<'a>>,
}

/// What ends a block, as it is written.
#[derive(Drop)]
pub enum RawTerm<'a> {
    Return(Option<(Width, At<RawValue<'a>>)>),
    Jump(At<Name<'a>>),
    Branch(At<RawValue<'a>>, At<Name<'a>>, At<Name<'a>>),
    Switch(Width, At<RawValue<'a>>, At<Name<'a>>, Items<RawCase<'a>>),
    Unreachable,
}

/// A basic block with its label, if one is written, and the place of its terminator's word.
#[derive(Drop)]
pub struct RawBlock<'a> {
    pub label: Option<At<Name<'a>>>,
    pub instrs: Items<RawInstr<'a>>,
    pub term: RawTerm<'a>,
    pub term_word: Span,
}

/// A parameter with its name, if one is written.
#[derive(Drop)]
pub struct RawParam<'a> {
    pub width: Width,
    pub name: Option<At<Name<'a>>>,
}

/// A function; without blocks it is a declaration.
#[derive(Drop)]
pub struct RawFunction<'a> {
    pub name: At<Spelling<'a>>,
    pub ret: Ty,
    pub params: Items<RawParam<'a>>,
    pub blocks: Items<RawBlock<'a>>,
}

/// A global variable with its written value.
#[derive(Drop)]
pub struct RawGlobal<'a> {
    pub name: At<Spelling<'a>>,
    pub width: Width,
    pub value: At<RawValue<'a>>,
}

/// A whole tree: its functions and its globals, each in text order.
#[derive(Drop)]
pub struct Raw<'a> {
    pub functions: Items<RawFunction<'a>>,
    pub globals: Items<RawGlobal<'a>>,
}
