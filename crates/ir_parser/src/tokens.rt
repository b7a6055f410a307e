//! Single tokens at the front of a list.

ghost use Rattle.std.specs.Prelude.{◌≡◌, ◌&&◌, Ok, drop, map};
ghost use Rattle.std.specs.List.{list_any, list_all};
ghost use Rattle.std.specs.Str.{bytes_eq};
ghost use Rattle.grammar.specs.Grammar.{token, repeated, heads};
ghost use Rattle.grammar.specs.Reading.{read};
ghost use Rattle.ir_lexer.specs.Lexeme.{lexeme};
ghost use Rattle.ir_lexer.specs.declared.token.TokenKind.TheVariants.{Word};
ghost use Rattle.ir_parser.specs.Tokens.{is_kind, is_spelled, is_named_global, is_numbered, is_group, dropped, a, word, mark, local, global};
ghost use Rattle.ir_parser.specs.Reader.{Gives, GivesToken};
ghost use Rattle.ir_parser.specs.declared.tokens.Trouble.TheVariants.{Memory, Stopped};

use crate::words::{global_name, is_numbered, local_name};
use ir_lexer::{Token, TokenKind};
use ir_types::name::{Name, Spelling};
use ir_types::span::At;
use std::alloc::AllocError;

/// The index of the token at which reading stops, or the number of tokens at the end.
#[derive(Clone, Copy)]
pub struct Stop {
    pub at: usize,
}

/// Why there is no tree.
#[derive(Clone, Copy)]
pub enum Trouble {
    Memory,
    Stopped(Stop),
}

impl From<Stop> for Trouble {
    ghost from_gives = { λ e stopped. stopped ≡ Stopped e };

    fn from(e: Stop) -> Trouble {
        Trouble::Stopped(e)
    }
}

impl From<AllocError> for Trouble {
    ghost from_gives = { λ _ e. e ≡ Memory };

    fn from(_e: AllocError) -> Trouble {
        Trouble::Memory
    }
}

fn is_kind(token: &Token, kind: TokenKind) -> bool
    ensures { result ≡ is_kind kind (lexeme token.now) }
{
    token.kind == kind
}

fn is_spelled(token: &Token, kind: TokenKind, text: &[u8]) -> bool
    ensures { result ≡ is_spelled kind text.now (lexeme token.now) }
{
    token.kind == kind && token.text == text
}

/// Whether the text is one of the words.
pub fn is_in(text: &[u8], words: &[&[u8]]) -> bool
    ensures { result ≡ list_any (λ w. bytes_eq text.now w.now) words.now }
{
    words.iter().any(|w| text == *w)
}

fn is_one_of(token: &Token, words: &[&[u8]]) -> bool
    ensures { result ≡ (is_kind Word (lexeme token.now) && list_any (λ w. bytes_eq token.now.text.now w.now) words.now) }
{
    token.kind == TokenKind::Word && is_in(token.text, words)
}

fn is_named_global(token: &Token) -> bool
    ensures { result ≡ is_named_global (lexeme token.now) }
{
    token.kind == TokenKind::Global && !is_numbered(token.text)
}

fn is_group(token: &Token) -> bool
    ensures { result ≡ is_group (lexeme token.now) }
{
    token.kind == TokenKind::Hash && is_numbered(token.text)
}

/// Whether the token at an index is of this kind.
pub fn is_kind_next(tokens: &[Token], at: usize, kind: TokenKind) -> bool
    ensures { result ≡ heads (is_kind kind) (map lexeme (drop at tokens.now)) }
{
    at < tokens.len() && is_kind(&tokens[at], kind)
}

/// Whether the token at an index is this word or mark.
pub fn is_next(tokens: &[Token], at: usize, kind: TokenKind, text: &[u8]) -> bool
    ensures { result ≡ heads (is_spelled kind text.now) (map lexeme (drop at tokens.now)) }
{
    at < tokens.len() && is_spelled(&tokens[at], kind, text)
}

/// Whether the token at an index is one of these words.
pub fn is_one_of_next(tokens: &[Token], at: usize, words: &[&[u8]]) -> bool
    ensures { result ≡ heads (λ t. is_kind Word t && list_any (λ w. bytes_eq t.text w.now) words.now) (map lexeme (drop at tokens.now)) }
{
    at < tokens.len() && is_one_of(&tokens[at], words)
}

/// Whether the token at an index is the number of a group of attributes.
pub fn is_group_next(tokens: &[Token], at: usize) -> bool
    ensures { result ≡ heads is_group (map lexeme (drop at tokens.now)) }
{
    at < tokens.len() && is_group(&tokens[at])
}

/// Whether the token at an index is a global with a name.
pub fn is_global_next(tokens: &[Token], at: usize) -> bool
    ensures { result ≡ heads is_named_global (map lexeme (drop at tokens.now)) }
{
    at < tokens.len() && is_named_global(&tokens[at])
}

/// The token of this kind, and the index behind it.
pub fn take_kind<'a>(
    tokens: &[Token<'a>],
    at: usize,
    kind: TokenKind,
) -> Result<(Token<'a>, usize), Stop>
    ensures { GivesToken tokens.now result (read (a kind) (map lexeme (drop at tokens.now))) }
{
    if at < tokens.len() && is_kind(&tokens[at], kind) {
        Ok((tokens[at], at + 1))
    } else {
        Err(Stop { at })
    }
}

/// The token of this kind with this text, and the index behind it.
pub fn take<'a>(
    tokens: &[Token<'a>],
    at: usize,
    kind: TokenKind,
    text: &[u8],
) -> Result<(Token<'a>, usize), Stop>
    ensures { GivesToken tokens.now result (read (token (is_spelled kind text.now)) (map lexeme (drop at tokens.now))) }
{
    if at < tokens.len() && is_spelled(&tokens[at], kind, text) {
        Ok((tokens[at], at + 1))
    } else {
        Err(Stop { at })
    }
}

/// One of these words, and the index behind it.
pub fn take_one_of<'a>(
    tokens: &[Token<'a>],
    at: usize,
    words: &[&[u8]],
) -> Result<(Token<'a>, usize), Stop>
    ensures { GivesToken tokens.now result (read (token (λ t. is_kind Word t && list_any (λ w. bytes_eq t.text w.now) words.now)) (map lexeme (drop at tokens.now))) }
{
    if at < tokens.len() && is_one_of(&tokens[at], words) {
        Ok((tokens[at], at + 1))
    } else {
        Err(Stop { at })
    }
}

/// The number of a group of attributes, and the index behind it.
pub fn take_group<'a>(tokens: &[Token<'a>], at: usize) -> Result<(Token<'a>, usize), Stop>
    ensures { GivesToken tokens.now result (read (token is_group) (map lexeme (drop at tokens.now))) }
{
    if at < tokens.len() && is_group(&tokens[at]) {
        Ok((tokens[at], at + 1))
    } else {
        Err(Stop { at })
    }
}

fn take_global<'a>(tokens: &[Token<'a>], at: usize) -> Result<(Token<'a>, usize), Stop>
    ensures { GivesToken tokens.now result (read (token is_named_global) (map lexeme (drop at tokens.now))) }
{
    if at < tokens.len() && is_named_global(&tokens[at]) {
        Ok((tokens[at], at + 1))
    } else {
        Err(Stop { at })
    }
}

/// Whether the token at an index is this word.
pub fn is_word_next(tokens: &[Token], at: usize, text: &[u8]) -> bool
    ensures { result ≡ heads (is_spelled Word text.now) (map lexeme (drop at tokens.now)) }
{
    is_next(tokens, at, TokenKind::Word, text)
}

/// This word, and the index behind it.
pub fn word<'a>(tokens: &[Token<'a>], at: usize, text: &[u8]) -> Result<(Token<'a>, usize), Stop>
    ensures { GivesToken tokens.now result (read (word text.now) (map lexeme (drop at tokens.now))) }
{
    take(tokens, at, TokenKind::Word, text)
}

/// This mark, and the index behind it.
pub fn mark<'a>(tokens: &[Token<'a>], at: usize, text: &[u8]) -> Result<(Token<'a>, usize), Stop>
    ensures { GivesToken tokens.now result (read (mark text.now) (map lexeme (drop at tokens.now))) }
{
    take(tokens, at, TokenKind::Punct, text)
}

/// The name of a local, and the index behind it.
pub fn local<'a>(tokens: &[Token<'a>], at: usize) -> Result<(At<Name<'a>>, usize), Stop>
    ensures { Gives tokens.now result (read local (map lexeme (drop at tokens.now))) }
{
    let (token, at) = take_kind(tokens, at, TokenKind::Local)?;
    let item = local_name(token.text);
    let span = token.span;
    Ok((At { item, span }, at))
}

/// The name of a global, and the index behind it.
pub fn global<'a>(tokens: &[Token<'a>], at: usize) -> Result<(At<Spelling<'a>>, usize), Stop>
    ensures { Gives tokens.now result (read global (map lexeme (drop at tokens.now))) }
{
    let (token, at) = take_global(tokens, at)?;
    let item = global_name(token.text);
    let span = token.span;
    Ok((At { item, span }, at))
}

/// The index behind any number of these words.
pub fn skip_words(tokens: &[Token], at: usize, words: &[&[u8]]) -> usize
    ensures { read (dropped (repeated (token (λ t. is_kind Word t && list_any (λ w. bytes_eq t.text w.now) words.now)))) (map lexeme (drop at tokens.now)) ≡ Ok (tt, map lexeme (drop result tokens.now)) }
{
    let mut next = at;
    while let Ok((_, after)) = take_one_of(tokens, next, words) {
        next = after;
    }
    next
}
