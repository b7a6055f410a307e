//! What stands before a place of a function.
ghost use Rattle.std.specs.Prelude.{◌≡◌, ◌<◌, ◌+◌, ◌^◌, OnOk};
ghost use Rattle.ir_types.specs.Limits.{is_alloca};
ghost use Rattle.ir_types.specs.Rules.{after_instr, at_block, here, next_block, register, result_meaning, result_type};

use ir_types::rules::{Here, Meaning};
use ir_types::tree::{RawBlock, RawInstr, RawKind, Ty};
use ir_uses::definitions::Definitions;
use mc_num::Width;
use std::alloc::AllocError;
use std::marker::Model;

/// What the names before a place of a function mean, in which block the place is, and how many variables of the
/// function, and how many instructions of the block that are no allocas, stand before it.
#[derive(Drop)]
pub struct Reached<'a> {
    before: Definitions<'a>,
    block: u32,
    variables: u32,
    instrs: u32,
}

impl<'a> Model for Reached<'a> {
    ghost use Rattle.ir_types.specs.Rules as rules;

    ghost Value = { rules.Reached };

    ghost view = { λ r. record { before = r.before; block = r.block; variables = r.variables; instrs = r.instrs } };
}

impl<'a> Reached<'a> {
    /// The place before the first block, behind parameters that mean this.
    pub fn behind(before: Definitions<'a>) -> Reached<'a>
        ensures { result ≡ record { before = before.entry; block = 0; variables = 0; instrs = 0 } }
    {
        Reached {
            before,
            block: 0,
            variables: 0,
            instrs: 0,
        }
    }

    /// What the names before the place mean.
    pub fn before(&self) -> &Definitions<'a>
        ensures { result.now ≡ self.now.before }
    {
        &self.before
    }

    /// The place.
    pub fn here(&self) -> Here
        ensures { result ≡ here self.now }
    {
        Here {
            block: self.block,
            instr: self.instrs,
        }
    }

    /// The definitions alone.
    pub fn into_before(self) -> Definitions<'a>
        ensures { result ≡ self.entry.before }
    {
        let Reached { before, .. } = self;
        before
    }

    fn register(&self, ty: Option<Ty>) -> Option<Meaning>
        ensures { result ≡ register self.now ty }
    {
        match ty {
            Some(ty) => Some(Meaning::Register(self.block, self.instrs, ty)),
            None => None,
        }
    }

    fn result_meaning(&self, named: bool, kind: &RawKind<'a>) -> Option<Meaning>
        ensures { result ≡ result_meaning self.now named kind.now }
    {
        match kind {
            RawKind::Alloca(width) => Some(Meaning::Variable(self.variables, *width)),
            _ => self.register(result_type(named, kind)),
        }
    }

    /// Goes behind an instruction.
    pub fn pass(&mut self, instr: &RawInstr<'a>) -> Result<(), AllocError>
        requires few { self.old.variables + self.old.instrs + 1 < 2 ^ 32 }
        ensures { OnOk result (self.new ≡ after_instr self.old instr.now) }
    {
        let meaning = self.result_meaning(instr.result.is_some(), &instr.kind);
        self.before.define_some(&instr.result, meaning)?;
        if is_alloca(&instr.kind) {
            self.variables += 1;
        } else {
            self.instrs += 1;
        }
        Ok(())
    }

    /// Goes behind the label of a block.
    pub fn enter(&mut self, block: &RawBlock<'a>) -> Result<(), AllocError>
        ensures { OnOk result (self.new ≡ at_block self.old block.now) }
    {
        self.before
            .define(&block.label, Meaning::Block(self.block))?;
        self.instrs = 0;
        Ok(())
    }

    /// Goes from behind the instructions of a block before the next block.
    pub fn leave(&mut self)
        requires few { self.old.block + 1 < 2 ^ 32 }
        ensures { self.new ≡ next_block self.old }
    {
        self.block += 1;
        self.instrs = 0;
    }
}

/// The type of what an instruction gives, or of what its written name stands for.
fn result_type(named: bool, kind: &RawKind<'_>) -> Option<Ty>
    ensures { result ≡ result_type named kind.now }
{
    match kind {
        RawKind::Alloca(_) | RawKind::Store(_, _, _) => None,
        RawKind::Icmp(_, _, _, _) => Some(Ty::Int(Width::I1)),
        RawKind::Load(width, _)
        | RawKind::Bin(_, width, _, _)
        | RawKind::Select(_, width, _, _, _)
        | RawKind::Phi(width, _) => Some(Ty::Int(*width)),
        RawKind::Cast(_, _, _, to) => Some(Ty::Int(to.item)),
        RawKind::Call(Ty::Int(width), _, _) => Some(Ty::Int(*width)),
        RawKind::Call(_, _, _) => { if named { Some(Ty::Void) } else { None } }
    }
}

/// Whether an instruction makes a variable.
pub fn is_alloca(kind: &RawKind<'_>) -> bool
    ensures { result ≡ is_alloca kind.now }
{
    matches!(kind, RawKind::Alloca(_))
}
