//! Texts of each phrase, and texts that stop.

use ir_lexer::{Token, end_of, lex};
use ir_parser::{ParseError, parse};
use ir_types::span::Span;
use std::alloc::Global;
use std::test::Fail;

/// How the reading of a text ends, with where it stops.
#[derive(Clone, Copy, Debug, PartialEq, Eq)]
enum Ending {
    Read,
    Syntax(u32),
    Out(u32),
    Failed,
}

fn ending_of(alloc: Global, tokens: &[Token], end: Span) -> Ending {
    match parse(alloc, tokens, end) {
        Ok(_) => Ending::Read,
        Err(ParseError::Syntax(span)) => Ending::Syntax(span.start),
        Err(ParseError::OutOfProfile(span)) => Ending::Out(span.start),
        Err(ParseError::NoMemory) => Ending::Failed,
    }
}

fn ending_of_text(alloc: Global, text: &[u8]) -> Ending {
    if text.len() > 4096 {
        return Ending::Failed;
    }
    match lex(alloc, text) {
        Ok(tokens) => ending_of(alloc, &tokens, end_of(text)),
        Err(_) => Ending::Failed,
    }
}

#[test]
fn reads_each_phrase(rt: HostRuntime) -> Result<(), Fail> {
    let texts = [
        "",
        "@g = global i32 5",
        "@g = dso_local internal local_unnamed_addr constant i1 true, align 4, !dbg !0",
        "@\"5\" = private global i64 poison",
        "declare i32 @getchar()",
        "declare void @f(i8, i16 noundef %x, i1 zeroext) unnamed_addr #3 nounwind align 16 !a !b",
        "define void @f() { unreachable }",
        "define dso_local ccc signext i32 @f(i32 noundef %0) #0 { ret i32 %0 }",
        "define void @f() { a: br label %b b: br label %\"c d\" \"c d\": ret void, !dbg !1 }",
        "define i32 @f() { %a = alloca i32, align 4 store i32 undef, ptr %a, align 4 %b = load i32, ptr @g ret i32 %b }",
        "define i32 @f() { %a = add nuw nsw i32 -1, 2 %b = sdiv exact i32 %a, %a xor i32 %b, 170141183460469231731687303715884105728 ret i32 0 }",
        "define i1 @f() { %a = icmp samesign ult i8 1, 2 %b = zext nneg i1 false to i64 %c = select i1 true, i1 %a, i1 %b ret i1 %c }",
        "define i1 @f() { call void @f() %a = tail call ccc noundef i8 @g(i8 zeroext 1, ptr noundef %a) #1 notail call i1 @h(ptr %0), !dbg !2 unreachable }",
        "define i1 @f() { %a = phi i8 [ 1, %b ], [ %a, %0 ], !dbg !3 phi i1 [ undef, %c ] unreachable }",
        "define i8 @f() { switch i8 %a, label %b [ i8 1, label %c i1 true, label %d ] switch i8 0, label %b [ ], !prof !1 ret i8 0 }",
        "define i8 @f(i1 %a) { br i1 %a, label %b, label %c, !prof !1 3: ret i8 0 }",
    ];
    for text in texts {
        assert_eq!(rt;
            ending_of_text(rt.alloc(), text.as_bytes()),
            Ending::Read,
            "of {text}"
        );
    }
    Ok(())
}

/// What the front of the text is, and what follows it from the stop on.
fn ending_behind(alloc: Global, front: &str, rest: &str) -> Result<Ending, Fail> {
    let text = format!(in alloc; "{front}{rest}")?;
    Ok(ending_of_text(alloc, text.as_bytes()))
}

fn length(text: &str) -> u32 {
    u32::try_from(text.len()).unwrap_or(u32::MAX)
}

#[test]
fn stops_by_syntax(rt: HostRuntime) -> Result<(), Fail> {
    let cases = [
        ("", "foo"),
        ("", "i32"),
        ("", "#0"),
        ("", "5"),
        ("@g = global i32 ", "@h"),
        ("@g = global i32 ", "%h"),
        ("@g ", "global i32 5"),
        ("declare i32 @f(i32 ", "@x)"),
        ("declare i32 @f(i32 ", "5)"),
        ("declare i32 @f(i32, ", ")"),
        ("declare i32 @f() ", "#dbg"),
        ("define i32 ", "%f() {"),
    ];
    for (front, rest) in cases {
        let wanted = Ending::Syntax(length(front));
        assert_eq!(rt;
            ending_behind(rt.alloc(), front, rest)?,
            wanted,
            "behind {front}"
        );
    }
    Ok(())
}

#[test]
fn stops_by_syntax_in_a_body(rt: HostRuntime) -> Result<(), Fail> {
    let cases = [
        ("define i32 @f() { ", "}"),
        ("define i32 @f() { %a = ", "store i32 0, ptr %a }"),
        ("define i32 @f() { %a = load i32, ", "i32* %a }"),
        (
            "define i32 @f() { %a = select ",
            "[2 x i1] %c, i32 1, i32 2 }",
        ),
        ("define i32 @f() { br ", "[2 x i1] %c, label %a, label %b }"),
        ("define i32 @f() { %a = phi i8 [ 1, %b ], ", "5 }"),
        (
            "define i32 @f() { switch i32 0, label %a [ i32 ",
            "@g, label %b ] }",
        ),
        (
            "define i32 @f() { switch i32 0, label %a [ i32 ",
            "undef, label %b ] }",
        ),
        ("define i32 @f() { call i32 @f(i32 1, ptr ", "5) }"),
        ("define i32 @f() { ret i32 0 } ", "}"),
        ("define i32 @f() { ret i32 0, ", "#0 }"),
        ("define i32 @f() { ret i32 0", ""),
    ];
    for (front, rest) in cases {
        let wanted = Ending::Syntax(length(front));
        assert_eq!(rt;
            ending_behind(rt.alloc(), front, rest)?,
            wanted,
            "behind {front}"
        );
    }
    Ok(())
}

#[test]
fn stops_out_of_profile(rt: HostRuntime) -> Result<(), Fail> {
    let cases = [
        ("", "module asm"),
        ("", "%x = type i32"),
        ("", "@5 = global i32 0"),
        ("", "ptr"),
        ("", "<"),
        ("declare i32 @f() ", "%t = type i32"),
        ("declare ", "[2 x i32] @f()"),
        ("declare ", "{ i32 } @f()"),
        ("declare i32 @f(", "ptr)"),
        ("declare i32 @f(i32, ", "...)"),
        ("@g = ", "external global i32"),
        ("@g = global ", "i128 0"),
        ("@g = global i32 ", "zeroinitializer"),
        ("define i32 @f(i32 ", "* %p) {"),
    ];
    for (front, rest) in cases {
        let wanted = Ending::Out(length(front));
        assert_eq!(rt;
            ending_behind(rt.alloc(), front, rest)?,
            wanted,
            "behind {front}"
        );
    }
    Ok(())
}

#[test]
fn stops_out_of_profile_in_a_body(rt: HostRuntime) -> Result<(), Fail> {
    let cases = [
        ("define i32 @f() { ", "#dbg_value(i32 0) ret i32 0 }"),
        ("define i32 @f() { ", "invoke void @g() }"),
        ("define i32 @f() { %a = load ", "[2 x i32], ptr %p }"),
        ("define i32 @f() { %a = load i32, ptr ", "@5 }"),
        ("define i32 @f() { %a = alloca i32, align 4 ret ", "i7 0 }"),
        ("define i32 @f() { ret i32 ", "@g }"),
        ("define i32 @f() { %a = phi i8 [ ", "@g, %b ] }"),
        ("define i32 @f() { call i32 @f(i32 noundef ", "@g) }"),
        ("define i32 @f() { call i32 @f(ptr ", "@g) }"),
        ("define i32 @f() { call i32 @f(ptr noundef ", "@g) }"),
        ("define i32 @f() { call i32 @f(", "{ i32 } undef) }"),
        (
            "define i32 @f() { switch i32 0, label %a [ ",
            "{ i32 } 0, label %b ] }",
        ),
    ];
    for (front, rest) in cases {
        let wanted = Ending::Out(length(front));
        assert_eq!(rt;
            ending_behind(rt.alloc(), front, rest)?,
            wanted,
            "behind {front}"
        );
    }
    Ok(())
}

/// The first `count` tokens.
fn front<'a, 'b>(tokens: &'b [Token<'a>], count: usize) -> &'b [Token<'a>] {
    if count < tokens.len() {
        &tokens[..count]
    } else {
        tokens
    }
}

/// A text stops at its end wherever it is cut, unless it is whole there.
#[test]
fn stops_at_each_cut(rt: HostRuntime) -> Result<(), Fail> {
    let text = b"@g = global i32 5, align 4 declare i32 @f(i32) #0
define i32 @main(i1 %c) { %a = alloca i32 store i32 undef, ptr %a %x = load i32, ptr %a
%y = add nsw i32 %x, 1 %z = zext i1 %c to i32 %w = icmp eq i32 %y, %z %v = select i1 %w, i32 1, i32 2
%u = call i32 @f(i32 noundef %v, ptr %a) #1 br i1 %w, label %l, label %m
l: switch i32 %u, label %m [ i32 1, label %m ] m: %p = phi i32 [ 0, %l ], [ %u, %0 ], align 1 ret i32 %p }";
    let end = end_of(text);
    let mut whole: u32 = 0;
    let mut tokens = Vec::new(rt.alloc());
    if let Ok(lexed) = lex(rt.alloc(), text) {
        tokens = lexed;
    }
    for count in 0..=tokens.len() {
        match ending_of(rt.alloc(), front(&tokens, count), end) {
            Ending::Read => whole = whole.saturating_add(1),
            other => assert_eq!(rt; other, Ending::Syntax(end.start), "of {count} tokens"),
        }
    }
    // Nothing, the global and what is attached to it, the declaration and its group, and the function.
    assert_eq!(rt; whole, 6);
    Ok(())
}
