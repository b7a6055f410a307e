//! New terminators.
ghost use Rattle.std.specs.Prelude.{◌≡◌, IfOk, drop, length, slice_index};
ghost use Rattle.flow_graph.specs.Slots.{slots_of};
ghost use Rattle.applied.specs.Renamed.{renamed, renamed_option};
ghost use Rattle.function_text.specs.ByChanges.{AreBelow, IsBelow, led, led_cases};
ghost use Rattle.ir_types.specs.declared.syntax.Terminator.TheVariants.{Return};

use ir_types::items::Items;
use ir_types::syntax::{Operand, Terminator};
use mc_num::NoMemory;
use std::alloc::{AllocError, Global};

/// The operand with the new number of its register.
fn new_operand(operand: Operand, numbers: &[u32]) -> Operand
    requires { IsBelow (length numbers.now) operand }
    ensures { result ≡ renamed (slice_index numbers.now) operand }
{
    match operand {
        Operand::Reg(register) => Operand::Reg(numbers[register as usize]),
        Operand::Const(_) | Operand::Param(_) => operand,
    }
}

/// What is returned, with the new number of its register.
fn new_value(value: Option<Operand>, numbers: &[u32]) -> Option<Operand>
    requires { AreBelow (length numbers.now) (Return value) }
    ensures { result ≡ renamed_option (slice_index numbers.now) value }
{
    value.map(|operand| new_operand(operand, numbers))
}

/// The cases with these targets.
fn new_cases(
    alloc: Global,
    cases: &[(u64, u32)],
    leads: &[u32],
) -> Result<Vec<(u64, u32)>, AllocError>
    ensures { IfOk result (λ new. new.items ≡ led_cases cases.now leads.now) }
{
    cases
        .iter()
        .zip(leads)
        .map(|(case, lead)| (case.0, *lead))
        .collect(alloc)
}

/// The terminator with the new numbers of registers, its slots leading to these blocks. `NoMemory` where an allocation
/// was refused.
pub fn new_term(
    alloc: Global,
    term: &Terminator,
    numbers: &[u32],
    leads: &[u32],
) -> Result<Terminator, NoMemory>
    requires operands { AreBelow (length numbers.now) term.now }
    requires leads { length leads.now ≡ length (slots_of term.now) }
    ensures { IfOk result (λ new. new ≡ led (slice_index numbers.now) leads.now term.now) }
{
    match term {
        Terminator::Return(value) => Ok(Terminator::Return(new_value(*value, numbers))),
        Terminator::Jump(_) => Ok(Terminator::Jump(leads[0])),
        Terminator::Branch(condition, _, _) => Ok(Terminator::Branch(
            new_operand(*condition, numbers),
            leads[0],
            leads[1],
        )),
        Terminator::Switch(width, operand, _, cases) => {
            let cases = new_cases(alloc, cases.as_slice(), &leads[1..])?;
            let operand = new_operand(*operand, numbers);
            Ok(Terminator::Switch(*width, operand, leads[0], Items::from(cases)))
        }
        Terminator::Unreachable => Ok(Terminator::Unreachable),
    }
}
