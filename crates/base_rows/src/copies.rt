//! Lists, and copies of instructions and terminators.

use ir_types::duplicate::Duplicate;
use ir_types::items::Items;
use ir_types::name::{Name, Spelling};
use ir_types::operands::Operands;
use ir_types::syntax::{Instr, Kind, Operand, Terminator};
use mc_num::{Bin, Op, Width};
use std::test::Fail;

#[test]
fn lists_keep_what_is_added(rt: HostRuntime) -> Result<(), Fail> {
    let alloc = rt.alloc();
    let mut numbers: Items<u64> = Items::new(alloc);
    for number in [3, 5, 8] {
        numbers.push(number)?;
    }
    assert!(rt; numbers.len() == 3);
    numbers.set(1, 6);
    let copies = Items::copied(alloc, numbers.as_slice())?;
    assert_eq!(rt; copies.as_slice(), [3, 6, 8].as_slice());
    assert!(rt; copies.get(2) == Some(&8) && copies.get(3).is_none());
    assert_eq!(rt;
        Items::from(copies.into_vec()).as_slice(),
        [3, 6, 8].as_slice()
    );
    Ok(())
}

// Up to three operands stand without memory, and more with it.
const OPERANDS: [Operand; 4] = [
    Operand::Const(2),
    Operand::Reg(0),
    Operand::Param(1),
    Operand::Const(7),
];

#[test]
fn copies_of_instructions_are_the_same(rt: HostRuntime) -> Result<(), Fail> {
    let alloc = rt.alloc();
    for count in [0, 3, 4] {
        let mut operands = Operands::new(alloc);
        for operand in &OPERANDS[..count] {
            operands.push(*operand)?;
        }
        let instr = Instr {
            result: Some(Name::Text(Spelling::new(b"ab"))),
            kind: Kind::Compute(Op::Bin(Bin::Add, Width::I32), operands),
        };
        let copy = instr.duplicate(alloc)?;
        assert!(rt; copy.result == Some(Name::Text(Spelling::new(b"ab"))));
        match &copy.kind {
            Kind::Compute(op, operands) => {
                assert!(rt; *op == Op::Bin(Bin::Add, Width::I32));
                assert_eq!(rt; operands.as_slice(), &OPERANDS[..count]);
            }
            _ => assert!(rt; false),
        }
    }
    Ok(())
}

#[test]
fn copies_of_terminators_are_the_same(rt: HostRuntime) -> Result<(), Fail> {
    let alloc = rt.alloc();
    let mut cases = Items::new(alloc);
    cases.push((0, 2))?;
    cases.push((255, 1))?;
    let switch = Terminator::Switch(Width::I8, Operand::Reg(4), 3, cases);
    match switch.duplicate(alloc)? {
        Terminator::Switch(width, value, other, cases) => {
            assert!(rt; width == Width::I8 && value == Operand::Reg(4) && other == 3);
            assert_eq!(rt; cases.as_slice(), [(0, 2), (255, 1)].as_slice());
        }
        _ => assert!(rt; false),
    }
    Ok(())
}
