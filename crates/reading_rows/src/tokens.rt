//! The tokens of small texts, and the first byte that starts none.

use ir_lexer::TokenKind::{self, Bang, Global, Hash, Label, Local, Number, Punct, Word};
use ir_lexer::{LexError, end_of, lex};
use ir_types::span::Span;
use std::test::Fail;

type Spot = (TokenKind, u32, u32, u32);

fn span(line: u32, start: u32, end: u32) -> Span {
    Span { line, start, end }
}

#[test]
fn gives_the_tokens(rt: HostRuntime) -> Result<(), Fail> {
    let rows: [(&[u8], &[Spot]); 9] = [
        (
            b"define i32 @main(){ret i32 0}",
            &[
                (Word, 1, 0, 6),
                (Word, 1, 7, 10),
                (Global, 1, 11, 16),
                (Punct, 1, 16, 17),
                (Punct, 1, 17, 18),
                (Punct, 1, 18, 19),
                (Word, 1, 19, 22),
                (Word, 1, 23, 26),
                (Number, 1, 27, 28),
                (Punct, 1, 28, 29),
            ],
        ),
        (
            b"%\"a b\" \"x y\": @\"0\"",
            &[(Local, 1, 0, 6), (Label, 1, 7, 13), (Global, 1, 14, 18)],
        ),
        (b"%5x", &[(Local, 1, 0, 2), (Word, 1, 2, 3)]),
        (
            b"1a: -5 -x",
            &[(Label, 1, 0, 3), (Number, 1, 4, 6), (Word, 1, 7, 9)],
        ),
        (
            b"%target = alloca i32\ntarget: target triple",
            &[
                (Local, 1, 0, 7),
                (Punct, 1, 8, 9),
                (Word, 1, 10, 16),
                (Word, 1, 17, 20),
                (Label, 2, 21, 28),
                (Word, 2, 29, 35),
                (Word, 2, 36, 42),
            ],
        ),
        (
            b"  target triple = \"x\"?\n\t!0 = !{}\nsource_filename\t\"\n attributes #0 = {\nret",
            &[(Word, 5, 70, 73)],
        ),
        (
            b"a;\x80?\"\n #0 !dbg",
            &[(Word, 1, 0, 1), (Hash, 2, 7, 9), (Bang, 2, 10, 14)],
        ),
        (b";", &[]),
        (b"", &[]),
    ];
    for (text, want) in rows {
        assert!(rt; text.len() < 100);
        let tokens = lex(rt.alloc(), text)?;
        assert_eq!(rt; tokens.len(), want.len());
        for (token, (kind, line, start, end)) in tokens.iter().zip(want) {
            assert_eq!(rt; token.kind, *kind, "at {start}");
            assert_eq!(rt; token.span, span(*line, *start, *end));
        }
    }
    Ok(())
}

#[test]
fn refuses_the_first_bad_byte(rt: HostRuntime) {
    let rows: [(&[u8], u32, u32); 9] = [
        (b"ret %", 1, 4),
        (b"@-a @", 1, 4),
        (b"%\"abc", 1, 0),
        (b"%\"\"", 1, 0),
        (b"\"ab\" x", 1, 0),
        (b"a !", 1, 2),
        (b"# 0", 1, 0),
        (b"x\n :", 2, 3),
        (b"x\n?", 2, 2),
    ];
    for (text, line, start) in rows {
        assert!(rt; text.len() < 100 && (start as usize) < text.len());
        let wrong = LexError::BadByte(span(line, start, start + 1), text[start as usize]);
        let refused = match lex(rt.alloc(), text) {
            Ok(_) => false,
            Err(error) => error == wrong,
        };
        assert!(rt; refused, "at {start}");
    }
}

#[test]
fn ends_behind_the_last_byte(rt: HostRuntime) {
    let rows: [(&[u8], u32, u32); 3] = [(b"", 1, 0), (b"a\n\nb", 3, 4), (b"\n", 2, 1)];
    for (text, line, end) in rows {
        assert!(rt; text.len() < 100);
        assert_eq!(rt; end_of(text), span(line, end, end));
    }
}
