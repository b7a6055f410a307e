//! Whole texts: read, printed and read back, and refused at their places.

use ir_lexer::lex;
use ir_printer::print;
use ir_reader::{ReadError, Refusal, read};
use ir_types::duplicate::Duplicate;
use ir_types::rules::{Problem, Rule};
use ir_types::span::Span;
use std::alloc::Global;
use std::process::Abort;
use std::test::Fail;

// A module with a global, a declaration, a parameter, a loop, a switch and a call.
const TEXT: &[u8] =
    b"@g = dso_local global i8 255, align 1 declare i32 @putchar(i32 noundef) define i32 @f(i32) { %2 = alloca i32 store i32 %0, ptr %2 br label %3 3: %4 = load i32, ptr %2 switch i32 %4, label %6 [ i32 0, label %3 i32 -1, label %5 ] 5: %\"a b\" = call i32 @putchar(i32 65) br label %6 6: ret i32 7 }";

const CANONICAL: &[u8] =
    b"@g = global i8 -1\n\ndeclare i32 @putchar(i32)\n\ndefine i32 @f(i32 %0) {\n1:\n  %2 = alloca i32\n  store i32 %0, ptr %2\n  br label %3\n3:\n  %4 = load i32, ptr %2\n  switch i32 %4, label %6 [ i32 0, label %3 i32 -1, label %5 ]\n5:\n  %\"a b\" = call i32 @putchar(i32 65)\n  br label %6\n6:\n  ret i32 7\n}\n";

// The canonical text of what the text reads as.
fn printed(rt: &impl Abort, alloc: Global, text: &[u8]) -> Result<Vec<u8>, Fail> {
    assert!(rt; text.len() < 1000);
    let program = read(alloc, text)?;
    Ok(print(alloc, &program)?)
}

#[test]
fn a_canonical_text_reads_back(rt: HostRuntime) -> Result<(), Fail> {
    let once = printed(&rt, rt.alloc(), TEXT)?;
    assert_eq!(rt; once.as_slice(), CANONICAL);
    let twice = printed(&rt, rt.alloc(), &once)?;
    assert_eq!(rt; twice.as_slice(), CANONICAL);
    Ok(())
}

#[test]
fn a_copy_is_the_same_module(rt: HostRuntime) -> Result<(), Fail> {
    assert!(rt; TEXT.len() < 1000);
    let program = read(rt.alloc(), TEXT)?;
    let copy = program.duplicate(rt.alloc())?;
    assert_eq!(rt; print(rt.alloc(), &copy)?.as_slice(), CANONICAL);
    let (globals, functions) = copy.into_parts();
    assert_eq!(rt; (globals.len(), functions.len()), (1, 2));
    Ok(())
}

fn span(line: u32, start: u32, end: u32) -> Span {
    Span { line, start, end }
}

#[test]
fn other_texts_are_refused_at_their_places(rt: HostRuntime) {
    let rows: [(&[u8], Refusal); 5] = [
        (b"\n ?", Refusal::BadByte(span(2, 2, 3), b'?')),
        (b"define i32 @f() {", Refusal::Syntax(span(1, 17, 17))),
        (
            b"define i32 @f() { ret i32 @g }",
            Refusal::OutOfProfile(span(1, 26, 28)),
        ),
        (
            b"define i32 @f() {\nret i32 %x }",
            Refusal::Broken(Problem {
                rule: Rule::Undefined,
                span: span(2, 26, 28),
            }),
        ),
        (
            b"declare void @f()",
            Refusal::Broken(Problem {
                rule: Rule::UnknownExternal,
                span: span(1, 13, 15),
            }),
        ),
    ];
    for (text, refusal) in rows {
        assert!(rt; text.len() < 1000);
        let answer = read(rt.alloc(), text);
        assert!(rt; matches!(answer, Err(ReadError::Refused(found)) if found == refusal));
    }
}

#[test]
fn tokens_and_names_are_slices_of_the_text(rt: HostRuntime) -> Result<(), Fail> {
    let text = Vec::from_slice(rt.alloc(), b"define i32 @main(){ret i32 0}")?;
    assert!(rt; text.len() < 1000);
    let wanted = [
        (0, 6),
        (7, 10),
        (11, 16),
        (16, 17),
        (17, 18),
        (18, 19),
        (19, 22),
        (23, 26),
        (27, 28),
        (28, 29),
    ];
    let tokens = lex(rt.alloc(), &text)?;
    assert_eq!(rt; tokens.len(), wanted.len());
    for (token, (start, end)) in tokens.iter().zip(wanted) {
        assert_eq!(rt; token.span, span(1, start, end));
    }
    let program = read(rt.alloc(), &text)?;
    match program.functions() {
        [main] => assert_eq!(rt; main.name.bytes(), &text[12..16]),
        _ => assert!(rt; false),
    }
    Ok(())
}
