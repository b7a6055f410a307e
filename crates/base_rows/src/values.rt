//! Values and traps by LLVM's manual.

use mc_num::{Bin, Cast, Op, Pred, Trap, Width, can_trap, eval};

#[test]
fn values(rt: HostRuntime) {
    assert_eq!(rt; eval(Op::Bin(Bin::Add, Width::I8), &[200, 100]), Ok(44));
    assert_eq!(rt; eval(Op::Bin(Bin::Sub, Width::I8), &[3, 5]), Ok(254));
    assert_eq!(rt;
        eval(Op::Bin(Bin::Mul, Width::I64), &[1 << 63, 3]),
        Ok(1 << 63)
    );
    assert_eq!(rt; eval(Op::Bin(Bin::Shl, Width::I32), &[1, 32]), Ok(0));
    assert_eq!(rt; eval(Op::Bin(Bin::AShr, Width::I8), &[128, 9]), Ok(255));
    assert_eq!(rt; eval(Op::Bin(Bin::AShr, Width::I8), &[249, 1]), Ok(252));
    assert_eq!(rt; eval(Op::Bin(Bin::LShr, Width::I8), &[249, 1]), Ok(124));
    assert_eq!(rt; eval(Op::Bin(Bin::SDiv, Width::I8), &[249, 2]), Ok(253));
    assert_eq!(rt; eval(Op::Bin(Bin::SRem, Width::I8), &[249, 2]), Ok(255));
    assert_eq!(rt; eval(Op::Bin(Bin::SRem, Width::I8), &[7, 254]), Ok(1));
    assert_eq!(rt; eval(Op::Bin(Bin::Xor, Width::I8), &[6, 3]), Ok(5));
}

#[test]
fn comparisons_and_widths(rt: HostRuntime) {
    assert_eq!(rt; eval(Op::Icmp(Pred::Slt, Width::I8), &[128, 127]), Ok(1));
    assert_eq!(rt; eval(Op::Icmp(Pred::Ult, Width::I8), &[128, 127]), Ok(0));
    assert_eq!(rt;
        eval(Op::Cast(Cast::Sext, Width::I8, Width::I32), &[128]),
        Ok(4294967168)
    );
    assert_eq!(rt;
        eval(Op::Cast(Cast::Zext, Width::I8, Width::I32), &[128]),
        Ok(128)
    );
    assert_eq!(rt;
        eval(Op::Cast(Cast::Trunc, Width::I32, Width::I8), &[300]),
        Ok(44)
    );
    assert_eq!(rt; eval(Op::Select(Width::I8), &[1, 5, 6]), Ok(5));
}

#[test]
fn traps(rt: HostRuntime) {
    assert_eq!(rt;
        eval(Op::Bin(Bin::SDiv, Width::I8), &[128, 255]),
        Err(Trap::DivOverflow)
    );
    assert_eq!(rt;
        eval(Op::Bin(Bin::SRem, Width::I64), &[1 << 63, u64::MAX]),
        Err(Trap::DivOverflow)
    );
    assert_eq!(rt;
        eval(Op::Bin(Bin::UDiv, Width::I8), &[1, 0]),
        Err(Trap::DivZero)
    );
    assert_eq!(rt; eval(Op::Bin(Bin::URem, Width::I8), &[128, 255]), Ok(128));
}

#[test]
fn known_divisors(rt: HostRuntime) {
    let signed = Op::Bin(Bin::SDiv, Width::I32);
    assert!(rt; !can_trap(signed, Some(7)));
    assert!(rt; can_trap(signed, Some(0)));
    assert!(rt; can_trap(signed, Some(4294967295)));
    assert!(rt; can_trap(signed, None));
    assert!(rt; !can_trap(Op::Bin(Bin::UDiv, Width::I32), Some(4294967295)));
    assert!(rt; !can_trap(Op::Bin(Bin::Add, Width::I32), None));
}
