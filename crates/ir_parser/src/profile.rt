//! Whether the token at which reading stops is one that LLVM's language has there.

ghost use Rattle.std.specs.Prelude.{◌≡◌, IfOk, map, take, drop};
ghost use Rattle.ir_lexer.specs.Lexeme.{lexeme};
ghost use Rattle.ir_lexer.specs.declared.token.TokenKind.TheVariants.{Global, Punct};
ghost use Rattle.ir_parser.specs.Profile.{is_in, type_words, memory_words, control_words, top_words, note_words, int_words, is_other_width, is_closed_word, probe, GoesOn, IsOutAt, IsOutOfProfile};
ghost use Rattle.ir_parser.specs.Answers.{Tells};

use crate::modules::module_text;
use crate::tokens::{Trouble, is_in};
use crate::words::{are_digits, is_numbered};
use ir_lexer::{Token, TokenKind};
use ir_types::span::Span;
use mc_num::NoMemory;
use std::alloc;

const TYPE_WORDS: [&[u8]; 20] = [
    b"ptr",
    b"half",
    b"bfloat",
    b"float",
    b"double",
    b"fp128",
    b"x86_fp80",
    b"fadd",
    b"fsub",
    b"fmul",
    b"fdiv",
    b"frem",
    b"fneg",
    b"fcmp",
    b"fptrunc",
    b"fpext",
    b"fptoui",
    b"fptosi",
    b"uitofp",
    b"sitofp",
];

const MEMORY_WORDS: [&[u8]; 16] = [
    b"getelementptr",
    b"volatile",
    b"atomic",
    b"fence",
    b"cmpxchg",
    b"atomicrmw",
    b"ptrtoint",
    b"inttoptr",
    b"addrspacecast",
    b"extractvalue",
    b"insertvalue",
    b"extractelement",
    b"insertelement",
    b"shufflevector",
    b"va_arg",
    b"freeze",
];

const CONTROL_WORDS: [&[u8]; 9] = [
    b"invoke",
    b"callbr",
    b"indirectbr",
    b"landingpad",
    b"resume",
    b"personality",
    b"asm",
    b"musttail",
    b"...",
];

const TOP_WORDS: [&[u8]; 18] = [
    b"module",
    b"comdat",
    b"metadata",
    b"null",
    b"zeroinitializer",
    b"weak",
    b"weak_odr",
    b"linkonce",
    b"linkonce_odr",
    b"available_externally",
    b"common",
    b"external",
    b"extern_weak",
    b"externally_initialized",
    b"thread_local",
    b"addrspace",
    b"alias",
    b"ifunc",
];

const NOTE_WORDS: [&[u8]; 4] = [
    b"#dbg_declare",
    b"#dbg_value",
    b"#dbg_assign",
    b"#dbg_label",
];

fn is_type(text: &[u8]) -> bool
    ensures { result ≡ is_in int_words text.now }
{
    is_in(text, &[b"i1", b"i8", b"i16", b"i32", b"i64"])
}

/// `i` and digits, and none of the types.
fn is_other_width(text: &[u8]) -> bool
    ensures { result ≡ is_other_width text.now }
{
    match text {
        [b'i', digits @ ..] => !digits.is_empty() && are_digits(digits) && !is_type(text),
        _ => false,
    }
}

fn is_type_word(text: &[u8]) -> bool
    ensures { result ≡ is_in type_words text.now }
{
    is_in(text, &TYPE_WORDS)
}

fn is_memory_word(text: &[u8]) -> bool
    ensures { result ≡ is_in memory_words text.now }
{
    is_in(text, &MEMORY_WORDS)
}

fn is_control_word(text: &[u8]) -> bool
    ensures { result ≡ is_in control_words text.now }
{
    is_in(text, &CONTROL_WORDS)
}

fn is_top_word(text: &[u8]) -> bool
    ensures { result ≡ is_in top_words text.now }
{
    is_in(text, &TOP_WORDS)
}

fn is_note(text: &[u8]) -> bool
    ensures { result ≡ is_in note_words text.now }
{
    is_in(text, &NOTE_WORDS)
}

fn is_closed_word(text: &[u8]) -> bool
    ensures { result ≡ is_closed_word text.now }
{
    is_type_word(text)
        || is_memory_word(text)
        || is_control_word(text)
        || is_top_word(text)
        || is_other_width(text)
}

/// Whether behind the tokens the grammar doesn't stop at the probe.
fn goes_on<'a>(
    alloc: alloc::Global,
    front: &[Token<'a>],
    kind: TokenKind,
    text: &'a [u8],
) -> Result<bool, NoMemory>
    ensures { IfOk result (λ goes. Tells goes (GoesOn (map lexeme front.now) (probe kind text.entry.now))) }
{
    let mut tokens = Vec::from_slice(alloc, front)?;
    tokens.push(Token {
        kind,
        text,
        span: Span {
            line: 0,
            start: 0,
            end: 0,
        },
    })?;
    match module_text(alloc, &tokens, 0) {
        Ok((_, at)) => Ok(at != front.len()),
        Err(Trouble::Stopped(stop)) => Ok(stop.at != front.len()),
        Err(Trouble::Memory) => Err(NoMemory),
    }
}

/// A mark at which reading stops: `<` and `*` are never of this grammar, and a bracket begins another type.
fn is_out_mark(alloc: alloc::Global, front: &[Token], text: &[u8]) -> Result<bool, NoMemory>
    ensures { IfOk result (λ out. Tells out (IsOutAt Punct (map lexeme front.now) text.now)) }
{
    if is_in(text, &[b"<", b"*"]) {
        return Ok(true);
    }
    if is_in(text, &[b"[", b"{"]) {
        return goes_on(alloc, front, TokenKind::Word, b"i32");
    }
    Ok(false)
}

/// A global at which reading stops: it is out of the profile where a value or the local of a `ptr` is expected.
fn is_out_global(alloc: alloc::Global, front: &[Token], text: &[u8]) -> Result<bool, NoMemory>
    ensures { IfOk result (λ out. Tells out (IsOutAt Global (map lexeme front.now) text.now)) }
{
    if is_numbered(text) {
        return Ok(true);
    }
    if !goes_on(alloc, front, TokenKind::Local, b"%x")? {
        return Ok(false);
    }
    if goes_on(alloc, front, TokenKind::Word, b"undef")? {
        return Ok(true);
    }
    if !goes_on(alloc, front, TokenKind::Word, b"noundef")? {
        return Ok(false);
    }
    let ends = goes_on(alloc, front, TokenKind::Punct, b")")?;
    Ok(!ends)
}

/// Whether the token of the index, at which reading stops, is out of the profile. Want of memory is the only error.
pub fn is_out(alloc: alloc::Global, tokens: &[Token], at: usize) -> Result<bool, NoMemory>
    ensures { IfOk result (λ out. Tells out (IsOutOfProfile (map lexeme (take at tokens.now)) (map lexeme (drop at tokens.now)))) }
{
    if at >= tokens.len() {
        return Ok(false);
    }
    let front = &tokens[..at];
    let token = &tokens[at];
    match token.kind {
        TokenKind::Word => Ok(is_closed_word(token.text)),
        TokenKind::Hash => Ok(is_note(token.text)),
        TokenKind::Punct => is_out_mark(alloc, front, token.text),
        TokenKind::Local => goes_on(alloc, front, TokenKind::Word, b"declare"),
        TokenKind::Global => is_out_global(alloc, front, token.text),
        TokenKind::Label | TokenKind::Number | TokenKind::Bang => Ok(false),
    }
}
