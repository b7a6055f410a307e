//! Texts that are read as profiles of small modules, and texts that are refused.
ghost use Rattle.profile.specs.Counts.{IsAccepted};

use ir_reader::read;
use ir_types::module::Module;
use mc_num::NoMemory;
use profile::{Profile, ProfileError, count_of_block, print_profile, read_profile};
use std::alloc::Global;
use std::process::Abort;
use std::test::Fail;

/// A branch in two arms that meet, behind a declaration that isn't counted.
const ARMS: &[u8] = b"declare i32 @getchar()
define i32 @main() {
entry:
  %g = call i32 @getchar()
  %c = icmp eq i32 %g, 65
  br i1 %c, label %left, label %right
left:
  br label %join
right:
  br label %join
join:
  ret i32 0
}
";

/// The same before its declaration, and a block that isn't reached and goes to where the arms meet.
const UNREACHED: &[u8] = b"define i32 @main() {
entry:
  %g = call i32 @getchar()
  %c = icmp eq i32 %g, 65
  br i1 %c, label %left, label %right
left:
  br label %join
right:
  br label %join
join:
  ret i32 0
other:
  br label %join
}
declare i32 @getchar()
";

/// Two slots to one block.
const PARALLEL: &[u8] = b"define i1 @main() {
entry:
  br i1 true, label %x, label %x
x:
  ret i1 true
}
";

const RETURNS: &[u8] = b"define void @main() { ret void }";

/// Two functions, of which the first ends by a trap or goes round in one block.
const TWO: &[u8] = b"define void @f(i8 %v) {
entry:
  switch i8 %v, label %round [ i8 1, label %trap i8 2, label %trap ]
round:
  br label %round
trap:
  unreachable
}
declare i32 @putchar(i32)
define void @main() { ret void }
";

const NOTHING: &[u8] = b"declare i32 @getchar() @g = global i8 1";

/// Texts that are profiles of modules.
const ACCEPTED: &[(&[u8], &str)] = &[
    (
        ARMS,
        "mcpre-profile 1\nfunc 0 100\nblock 0 90 10\nblock 1 90\nblock 2 10\nblock 3\n",
    ),
    (
        ARMS,
        "mcpre-profile 1\nfunc 0 0\nblock 0 0 0\nblock 1 0\nblock 2 0\nblock 3\n",
    ),
    (
        UNREACHED,
        "mcpre-profile 1\nfunc 0 1\nblock 0 1 0\nblock 1 1\nblock 2 0\nblock 3\nblock 4 0\n",
    ),
    (
        PARALLEL,
        "mcpre-profile 1\nfunc 0 7\nblock 0 3 4\nblock 1\n",
    ),
    (
        RETURNS,
        "mcpre-profile 1\nfunc 0 4611686018427387903\nblock 0\n",
    ),
    (
        TWO,
        "mcpre-profile 1\nfunc 0 0\nblock 0 0 0 0\nblock 1 0\nblock 2\nfunc 1 5\nblock 0\n",
    ),
    (NOTHING, "mcpre-profile 1\n"),
    (b"", "mcpre-profile 1\n"),
];

/// Texts with a line that is of no form, and its number.
const FORMLESS: &[(&str, u32)] = &[
    ("", 1),
    ("\n", 1),
    ("mcpre-profile 2\n", 1),
    ("mcpre-profile 1", 1),
    ("mcpre-profile 1 \n", 1),
    ("mcpre-profile 01\n", 1),
    (" mcpre-profile 1\n", 1),
    ("mcpre-profile 1\r\nfunc 0 1\nblock 0\n", 1),
    ("mcpre-profile 1\n\n", 2),
    ("mcpre-profile 1\nfunc 0 1", 2),
    ("mcpre-profile 1\nfunc 0\n", 2),
    ("mcpre-profile 1\nfunc 0 1 2\n", 2),
    ("mcpre-profile 1\nfunc  0 1\n", 2),
    ("mcpre-profile 1\nfunc 0 1 \n", 2),
    ("mcpre-profile 1\n func 0 1\n", 2),
    ("mcpre-profile 1\nfunc\t0 1\n", 2),
    ("mcpre-profile 1\nfunc 00 1\n", 2),
    ("mcpre-profile 1\nfunc 0 01\n", 2),
    ("mcpre-profile 1\nfunc 0 +1\n", 2),
    ("mcpre-profile 1\nfunc 0 -1\n", 2),
    ("mcpre-profile 1\nfunc 0 1x\n", 2),
    ("mcpre-profile 1\nfunc 0 18446744073709551616\nblock 0\n", 2),
    ("mcpre-profile 1\nFunc 0 1\n", 2),
    ("mcpre-profile 1\nfunction 0 1\n", 2),
    ("mcpre-profile 1\nfunc 0 1\r\n", 2),
    ("mcpre-profile 1\nfunc 0 1\nblock\n", 3),
    ("mcpre-profile 1\nfunc 0 1\nblock \n", 3),
    ("mcpre-profile 1\nfunc 0 1\nblock 0", 3),
    ("mcpre-profile 1\nfunc 0 1\nblock 0\n\n", 4),
    ("mcpre-profile 1\nfunc 0 1\nblock 0\nx\n", 4),
    ("mcpre-profile 1\nblock 7\nfunc 9 9\nfunc\n", 4),
];

/// Modules and texts, and why the text is refused.
const REFUSED: &[(&[u8], &str, ProfileError)] = &[
    (
        ARMS,
        "mcpre-profile 1\nfunc 0 100\nblock 0 90 10\nblock 1 90\nblock 2 10\n",
        ProfileError::Shape(6),
    ),
    (ARMS, "mcpre-profile 1\n", ProfileError::Shape(2)),
    (
        ARMS,
        "mcpre-profile 1\nfunc 1 100\nblock 0 90 10\n",
        ProfileError::Shape(2),
    ),
    (
        ARMS,
        "mcpre-profile 1\nblock 0 90 10\nfunc 0 100\n",
        ProfileError::Shape(2),
    ),
    (
        ARMS,
        "mcpre-profile 1\nfunc 0 100\nblock 0 90\nblock 1 90\n",
        ProfileError::Shape(3),
    ),
    (
        ARMS,
        "mcpre-profile 1\nfunc 0 100\nblock 0 90 10 0\nblock 1 90\n",
        ProfileError::Shape(3),
    ),
    (
        ARMS,
        "mcpre-profile 1\nfunc 0 100\nblock 0 90 10\nblock 2 90\n",
        ProfileError::Shape(4),
    ),
    (
        ARMS,
        "mcpre-profile 1\nfunc 0 100\nblock 0 90 10\nblock 1 90\nblock 2 10\nblock 3\nblock 4\n",
        ProfileError::Shape(7),
    ),
    (
        RETURNS,
        "mcpre-profile 1\nfunc 0 1\nblock 0 1\n",
        ProfileError::Shape(3),
    ),
    (
        RETURNS,
        "mcpre-profile 1\nfunc 0 1\nblock 0\nfunc 1 1\n",
        ProfileError::Shape(4),
    ),
    (
        NOTHING,
        "mcpre-profile 1\nfunc 0 1\n",
        ProfileError::Shape(2),
    ),
    (
        ARMS,
        "mcpre-profile 1\nfunc 0 100\nblock 0 90 10\nblock 1 90\nblock 2 9\nblock 3\n",
        ProfileError::Unbalanced(0, 2, 10, 9),
    ),
    (
        ARMS,
        "mcpre-profile 1\nfunc 0 99\nblock 0 90 10\nblock 1 80\nblock 2 9\nblock 3\n",
        ProfileError::Unbalanced(0, 0, 99, 100),
    ),
    (
        PARALLEL,
        "mcpre-profile 1\nfunc 0 0\nblock 0 18446744073709551615 18446744073709551615\nblock 1\n",
        ProfileError::Unbalanced(0, 0, 0, 36_893_488_147_419_103_230),
    ),
    (
        TWO,
        "mcpre-profile 1\nfunc 0 4\nblock 0 1 1 2\nblock 1 0\nblock 2\nfunc 1 5\nblock 0\n",
        ProfileError::Unbalanced(0, 1, 1, 0),
    ),
    (
        TWO,
        "mcpre-profile 1\nfunc 0 3\nblock 0 0 1 2\nblock 1 0\nblock 2\nfunc 1 5\nblock 0\n",
        ProfileError::Unbalanced(0, 2, 3, 0),
    ),
    (
        UNREACHED,
        "mcpre-profile 1\nfunc 0 1\nblock 0 1 0\nblock 1 1\nblock 2 0\nblock 3\nblock 4 1\n",
        ProfileError::Unreached(0, 4),
    ),
    (
        UNREACHED,
        "mcpre-profile 1\nfunc 0 1\nblock 0 1 0\nblock 1 2\nblock 2 0\nblock 3\nblock 4 1\n",
        ProfileError::Unbalanced(0, 1, 1, 2),
    ),
    (
        RETURNS,
        "mcpre-profile 1\nfunc 0 4611686018427387904\nblock 0\n",
        ProfileError::Total,
    ),
    (
        RETURNS,
        "mcpre-profile 1\nfunc 0 18446744073709551615\nblock 0\n",
        ProfileError::Total,
    ),
    (
        PARALLEL,
        "mcpre-profile 1\nfunc 0 2305843009213693952\nblock 0 1 2305843009213693951\nblock 1\n",
        ProfileError::Total,
    ),
    (
        UNREACHED,
        "mcpre-profile 1\nfunc 0 4611686018427387904\nblock 0 4611686018427387904 0\nblock 1 4611686018427387904\nblock 2 0\nblock 3\nblock 4 1\n",
        ProfileError::Unreached(0, 4),
    ),
];

/// Texts that are profiles of modules, with how often blocks of the first function were entered.
const ENTERED: &[(&[u8], &str, &[(u32, u64)])] = &[
    (
        PARALLEL,
        "mcpre-profile 1\nfunc 0 7\nblock 0 3 4\nblock 1\n",
        &[(0, 7), (1, 7)],
    ),
    (
        UNREACHED,
        "mcpre-profile 1\nfunc 0 100\nblock 0 90 10\nblock 1 90\nblock 2 10\nblock 3\nblock 4 0\n",
        &[(0, 100), (1, 90), (2, 10), (3, 100)],
    ),
    (
        RETURNS,
        "mcpre-profile 1\nfunc 0 4611686018427387903\nblock 0\n",
        &[(0, 4_611_686_018_427_387_903)],
    ),
];

// The text of accepted counts.
fn printed(alloc: Global, program: &Module<'_>, profile: &Profile) -> Result<Vec<u8>, NoMemory>
    requires { IsAccepted program.now profile.now.functions }
{
    print_profile(alloc, program, profile)
}

// How often a block of the first function was entered, by accepted counts; `None` where that function has no blocks.
fn count_in_first(program: &Module<'_>, profile: &Profile, block: u32) -> Option<u64>
    requires { IsAccepted program.now profile.now.functions }
{
    let function = program.functions().first()?;
    let counts = profile.functions.as_slice().first()?;
    if function.blocks.as_slice().is_empty() {
        return None;
    }
    Some(count_of_block(function, counts, block))
}

// Expects that a text is refused for this reason as the profile of a module.
fn expect_refusal(
    rt: &impl Abort,
    alloc: Global,
    program: &[u8],
    text: &str,
    wanted: ProfileError,
) -> Result<(), Fail> {
    assert!(rt; program.len() < 1000 && text.len() < 1000);
    let program = read(alloc, program)?;
    match read_profile(alloc, text.as_bytes(), &program) {
        Ok(_) => assert!(rt; false, "of {text}"),
        Err(error) => assert_eq!(rt; error, wanted, "of {text}"),
    }
    Ok(())
}

#[test]
fn texts_of_accepted_counts_are_read_and_printed_back(rt: HostRuntime) -> Result<(), Fail> {
    for (program, text) in ACCEPTED {
        assert!(rt; program.len() < 1000 && text.len() < 1000);
        let program = read(rt.alloc(), program)?;
        let profile = read_profile(rt.alloc(), text.as_bytes(), &program)?;
        let again = printed(rt.alloc(), &program, &profile)?;
        assert_eq!(rt; again.as_slice(), text.as_bytes(), "of {text}");
    }
    Ok(())
}

#[test]
fn lines_of_no_form(rt: HostRuntime) -> Result<(), Fail> {
    for (text, line) in FORMLESS {
        expect_refusal(&rt, rt.alloc(), RETURNS, text, ProfileError::Form(*line))?;
    }
    Ok(())
}

#[test]
fn counts_that_are_not_the_modules(rt: HostRuntime) -> Result<(), Fail> {
    for (program, text, wanted) in REFUSED {
        expect_refusal(&rt, rt.alloc(), program, text, *wanted)?;
    }
    Ok(())
}

#[test]
fn how_often_blocks_are_entered(rt: HostRuntime) -> Result<(), Fail> {
    for (program, text, counts) in ENTERED {
        assert!(rt; program.len() < 1000 && text.len() < 1000);
        let program = read(rt.alloc(), program)?;
        let profile = read_profile(rt.alloc(), text.as_bytes(), &program)?;
        for (block, count) in *counts {
            assert_eq!(rt;
                count_in_first(&program, &profile, *block),
                Some(*count),
                "of {text}"
            );
        }
    }
    Ok(())
}
