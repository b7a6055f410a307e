//! A call that runs or waits.
ghost use Rattle.std.specs.Prelude.{◌≡◌, map, IfOk, OnOk, OnErr};
ghost use Rattle.ir_machine.specs.Step.{value_in, past};

use crate::values::Values;
use ir_types::syntax::Operand;
use std::alloc::{AllocError, Global};

/// A call that runs or waits: its function and block, its arguments, and what its variables hold. It has one register for each
/// instruction of the block that it has passed, which is 0 where the instruction gives no result; so its place in the block is
/// the number of its registers.
#[derive(Debug, Drop)]
pub struct Frame {
    pub function: u32,
    pub block: u32,
    pub arguments: Values,
    pub registers: Values,
    pub variables: Values,
}

impl Frame {
    /// The value of an operand here.
    pub fn value_in(&self, operand: Operand) -> u64
        ensures { result ≡ value_in self.now operand }
    {
        match operand {
            Operand::Const(value) => value,
            Operand::Param(place) => self.arguments.get(place),
            Operand::Reg(place) => self.registers.get(place),
        }
    }

    /// The values of operands here, in order. `AllocError` where an allocation was refused.
    pub fn values_in(&self, alloc: Global, operands: &[Operand]) -> Result<Values, AllocError>
        ensures { IfOk result (λ values. values ≡ map (value_in self.now) operands.now) }
    {
        let mut values = Values::new(alloc);
        for operand in operands {
            values.push(self.value_in(*operand))?;
        }
        Ok(values)
    }

    /// Goes past an instruction that gave this value, or 0 where it gives none. `AllocError` where an allocation was refused; the
    /// frame is unchanged then.
    pub fn pass(&mut self, value: u64) -> Result<(), AllocError>
        ensures ok { OnOk result (self.new ≡ past self.old value) }
        ensures err { OnErr result (self.new ≡ self.old) }
    {
        self.registers.push(value)
    }
}
