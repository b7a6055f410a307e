//! Copies of the syntax types.
use crate::duplicate::Duplicate;
use crate::name::{Name, Spelling};
use crate::syntax;
use crate::syntax::{Block, Function, Instr, Kind, Operand, Terminator};
use mc_num::Width;
use std::alloc::{AllocError, Global};

impl Duplicate for u32 {
    fn duplicate(&self, _alloc: Global) -> Result<u32, AllocError> {
        Ok(*self)
    }
}

impl Duplicate for u64 {
    fn duplicate(&self, _alloc: Global) -> Result<u64, AllocError> {
        Ok(*self)
    }
}

impl Duplicate for Width {
    fn duplicate(&self, _alloc: Global) -> Result<Width, AllocError> {
        Ok(*self)
    }
}

impl Duplicate for Operand {
    fn duplicate(&self, _alloc: Global) -> Result<Operand, AllocError> {
        Ok(*self)
    }
}

impl<A: Duplicate + Drop, B: Duplicate + Drop> Duplicate for (A, B) {
    fn duplicate(&self, alloc: Global) -> Result<(A, B), AllocError> {
        Ok((self.0.duplicate(alloc)?, self.1.duplicate(alloc)?))
    }
}

impl<'a> Duplicate for Name<'a> {
    fn duplicate(&self, _alloc: Global) -> Result<Name<'a>, AllocError> {
        Ok(self.copied())
    }
}

impl<'a> Duplicate for Spelling<'a> {
    fn duplicate(&self, _alloc: Global) -> Result<Spelling<'a>, AllocError> {
        Ok(self.copied())
    }
}

impl Duplicate for Kind {
    fn duplicate(&self, alloc: Global) -> Result<Kind, AllocError> {
        match self {
            Kind::Load(variable) => Ok(Kind::Load(*variable)),
            Kind::Store(value, variable) => Ok(Kind::Store(*value, *variable)),
            Kind::Compute(op, operands) => Ok(Kind::Compute(*op, operands.duplicate(alloc)?)),
            Kind::Call(callee, arguments) => Ok(Kind::Call(*callee, arguments.duplicate(alloc)?)),
        }
    }
}

impl<'a> Duplicate for Instr<'a> {
    fn duplicate(&self, alloc: Global) -> Result<Instr<'a>, AllocError> {
        let result = match &self.result {
            Some(name) => Some(name.copied()),
            None => None,
        };
        let kind = self.kind.duplicate(alloc)?;
        Ok(Instr { result, kind })
    }
}

impl Duplicate for Terminator {
    fn duplicate(&self, alloc: Global) -> Result<Terminator, AllocError> {
        match self {
            Terminator::Return(value) => Ok(Terminator::Return(*value)),
            Terminator::Jump(target) => Ok(Terminator::Jump(*target)),
            Terminator::Branch(condition, yes, no) => Ok(Terminator::Branch(*condition, *yes, *no)),
            Terminator::Switch(width, value, other, cases) => {
                Ok(Terminator::Switch(*width, *value, *other, cases.duplicate(alloc)?))
            }
            Terminator::Unreachable => Ok(Terminator::Unreachable),
        }
    }
}

impl<'a> Duplicate for Block<'a> {
    fn duplicate(&self, alloc: Global) -> Result<Block<'a>, AllocError> {
        let instrs = self.instrs.duplicate(alloc)?;
        let term = self.term.duplicate(alloc)?;
        Ok(Block {
            name: self.name.copied(),
            instrs,
            term,
        })
    }
}

impl<'a> Duplicate for Function<'a> {
    fn duplicate(&self, alloc: Global) -> Result<Function<'a>, AllocError> {
        let params = self.params.duplicate(alloc)?;
        let vars = self.vars.duplicate(alloc)?;
        let blocks = self.blocks.duplicate(alloc)?;
        Ok(Function {
            name: self.name.copied(),
            ret: self.ret,
            params,
            vars,
            blocks,
        })
    }
}

impl<'a> Duplicate for syntax::Global<'a> {
    fn duplicate(&self, _alloc: Global) -> Result<syntax::Global<'a>, AllocError> {
        Ok(syntax::Global {
            name: self.name.copied(),
            width: self.width,
            value: self.value,
        })
    }
}
