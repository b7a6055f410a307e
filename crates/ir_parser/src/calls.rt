//! Calls and phis, each at the front of a list of tokens.

ghost use Rattle.std.specs.Prelude.{◌≡◌, Ok, drop, map};
ghost use Rattle.grammar.specs.Grammar.{is_next};
ghost use Rattle.grammar.specs.Reading.{read};
ghost use Rattle.ir_lexer.specs.Lexeme.{lexeme};
ghost use Rattle.ir_parser.specs.Calls.{call_words, arg, next_arg, some_args, args, call_word, call, brackets_next, incoming, next_incoming, incomings, phi};
ghost use Rattle.ir_parser.specs.Reader.{Gives, GivesOrMemory, GivesToken, Passes};

use crate::tokens::{
    Stop, Trouble, global, is_next, is_one_of_next, is_word_next, local, mark, skip_words,
    take_kind, take_one_of, word,
};
use crate::values::{attributes, extras, is_type_next, ret, ty, value};
use crate::words::local_name;
use ir_lexer::{Token, TokenKind};
use ir_types::items::Items;
use ir_types::name::Name;
use ir_types::span::{At, Span};
use ir_types::tree::{RawArg, RawKind, RawValue, Ty};
use std::alloc::Global;

#[tactic(auto, unfolding(crate::specs::Calls::arg, crate::specs::Values::int_type))]
fn is_arg_next(tokens: &[Token], at: usize) -> bool
    ensures { result ≡ is_next arg (map lexeme (drop at tokens.now)) }
{
    is_type_next(tokens, at) || is_word_next(tokens, at, b"ptr")
}

#[tactic(auto, unfolding(crate::specs::Calls::arg, crate::specs::Values::int_type))]
fn arg<'a>(tokens: &[Token<'a>], at: usize) -> Result<(RawArg<'a>, usize), Stop>
    ensures { Gives tokens.now result (read arg (map lexeme (drop at tokens.now))) }
{
    if is_type_next(tokens, at) {
        let (width, at) = ty(tokens, at)?;
        let at = attributes(tokens, at);
        let (value, at) = value(tokens, at)?;
        let ty = Ty::Int(width.item);
        return Ok((RawArg { ty, value }, at));
    }
    let (_, at) = word(tokens, at, b"ptr")?;
    let at = attributes(tokens, at);
    let (name, at) = take_kind(tokens, at, TokenKind::Local)?;
    let item = RawValue::Local(local_name(name.text));
    let span = name.span;
    let value = At { item, span };
    Ok((RawArg { ty: Ty::Ptr, value }, at))
}

#[tactic(auto, unfolding(crate::specs::Calls::next_arg))]
fn next_arg<'a>(tokens: &[Token<'a>], at: usize) -> Result<(RawArg<'a>, usize), Stop>
    ensures { Gives tokens.now result (read next_arg (map lexeme (drop at tokens.now))) }
{
    let (_, at) = mark(tokens, at, b",")?;
    arg(tokens, at)
}

#[tactic(auto, unfolding(crate::specs::Calls::next_arg))]
fn is_next_arg(tokens: &[Token], at: usize) -> bool
    ensures { result ≡ is_next next_arg (map lexeme (drop at tokens.now)) }
{
    is_next(tokens, at, TokenKind::Punct, b",")
}

/// The arguments, at least one.
#[tactic(auto, unfolding(crate::specs::Calls::some_args))]
fn some_args<'a>(
    alloc: Global,
    tokens: &[Token<'a>],
    at: usize,
) -> Result<(Items<RawArg<'a>>, usize), Trouble>
    ensures { GivesOrMemory tokens.now result (read some_args (map lexeme (drop at tokens.now))) }
{
    let mut args = Items::new(alloc);
    let (first, mut next) = arg(tokens, at)?;
    args.push(first)?;
    while is_next_arg(tokens, next) {
        let (further, after) = next_arg(tokens, next)?;
        args.push(further)?;
        next = after;
    }
    Ok((args, next))
}

#[tactic(auto, unfolding(crate::specs::Calls::some_args, crate::specs::Calls::arg, crate::specs::Values::int_type))]
fn are_args_next(tokens: &[Token], at: usize) -> bool
    ensures { result ≡ is_next some_args (map lexeme (drop at tokens.now)) }
{
    is_arg_next(tokens, at)
}

/// The arguments, if any.
#[tactic(auto, unfolding(crate::specs::Calls::args))]
fn args<'a>(
    alloc: Global,
    tokens: &[Token<'a>],
    at: usize,
) -> Result<(Items<RawArg<'a>>, usize), Trouble>
    ensures { GivesOrMemory tokens.now result (read args (map lexeme (drop at tokens.now))) }
{
    if are_args_next(tokens, at) {
        return some_args(alloc, tokens, at);
    }
    Ok((Items::new(alloc), at))
}

/// The word `call`, with what may stand before it.
#[tactic(auto, unfolding(crate::specs::Calls::call_word))]
fn call_word<'a>(tokens: &[Token<'a>], at: usize) -> Result<(Token<'a>, usize), Stop>
    ensures { GivesToken tokens.now result (read call_word (map lexeme (drop at tokens.now))) }
{
    if is_one_of_next(tokens, at, &[b"tail", b"notail"]) {
        let (_, at) = take_one_of(tokens, at, &[b"tail", b"notail"])?;
        return word(tokens, at, b"call");
    }
    word(tokens, at, b"call")
}

/// Whether the next token begins a call.
#[tactic(auto, unfolding(crate::specs::Calls::call, crate::specs::Calls::call_word))]
pub fn is_call_next(tokens: &[Token], at: usize) -> bool
    ensures { result ≡ is_next call (map lexeme (drop at tokens.now)) }
{
    is_one_of_next(tokens, at, &[b"tail", b"notail"]) || is_word_next(tokens, at, b"call")
}

/// The index behind the words that may stand behind `call`.
#[tactic(auto, unfolding(crate::specs::Calls::call_words))]
fn call_words(tokens: &[Token], at: usize) -> usize
    ensures { read call_words (map lexeme (drop at tokens.now)) ≡ Ok (tt, map lexeme (drop result tokens.now)) }
{
    skip_words(tokens, at, &[b"ccc", b"noundef", b"signext", b"zeroext"])
}

/// A call.
#[tactic(auto, unfolding(crate::specs::Calls::call))]
pub fn call<'a>(
    alloc: Global,
    tokens: &[Token<'a>],
    at: usize,
) -> Result<((Span, RawKind<'a>), usize), Trouble>
    ensures { GivesOrMemory tokens.now result (read call (map lexeme (drop at tokens.now))) }
{
    let (word, at) = call_word(tokens, at)?;
    let at = call_words(tokens, at);
    let (ty, at) = ret(tokens, at)?;
    let (callee, at) = global(tokens, at)?;
    let (_, at) = mark(tokens, at, b"(")?;
    let (args, at) = args(alloc, tokens, at)?;
    let (_, at) = mark(tokens, at, b")")?;
    let at = extras(tokens, at)?;
    Ok(((word.span, RawKind::Call(ty, callee, args)), at))
}

#[tactic(auto, unfolding(crate::specs::Calls::incoming))]
fn incoming<'a>(
    tokens: &[Token<'a>],
    at: usize,
) -> Result<((At<RawValue<'a>>, At<Name<'a>>), usize), Stop>
    ensures { Gives tokens.now result (read incoming (map lexeme (drop at tokens.now))) }
{
    let (_, at) = mark(tokens, at, b"[")?;
    let (value, at) = value(tokens, at)?;
    let (_, at) = mark(tokens, at, b",")?;
    let (block, at) = local(tokens, at)?;
    let (_, at) = mark(tokens, at, b"]")?;
    Ok(((value, block), at))
}

/// Whether a bracket stands behind the next token.
#[tactic(auto, using(crate::proofs::Places::behind_next))]
fn brackets_next(tokens: &[Token], at: usize) -> bool
    ensures { result ≡ brackets_next (map lexeme (drop at tokens.now)) }
{
    at < tokens.len() && is_next(tokens, at + 1, TokenKind::Punct, b"[")
}

#[tactic(auto, unfolding(crate::specs::Calls::next_incoming))]
fn is_next_incoming(tokens: &[Token], at: usize) -> bool
    ensures { result ≡ is_next next_incoming (map lexeme (drop at tokens.now)) }
{
    brackets_next(tokens, at) && is_next(tokens, at, TokenKind::Punct, b",")
}

#[tactic(auto, unfolding(crate::specs::Calls::next_incoming))]
fn next_incoming<'a>(
    tokens: &[Token<'a>],
    at: usize,
) -> Result<((At<RawValue<'a>>, At<Name<'a>>), usize), Stop>
    ensures { Gives tokens.now result (read next_incoming (map lexeme (drop at tokens.now))) }
{
    if !brackets_next(tokens, at) {
        return Err(Stop { at });
    }
    let (_, at) = mark(tokens, at, b",")?;
    incoming(tokens, at)
}

/// The pairs of a phi, at least one.
#[tactic(auto, unfolding(crate::specs::Calls::incomings))]
fn incomings<'a>(
    alloc: Global,
    tokens: &[Token<'a>],
    at: usize,
) -> Result<(Items<(At<RawValue<'a>>, At<Name<'a>>)>, usize), Trouble>
    ensures { GivesOrMemory tokens.now result (read incomings (map lexeme (drop at tokens.now))) }
{
    let mut pairs = Items::new(alloc);
    let (first, mut next) = incoming(tokens, at)?;
    pairs.push(first)?;
    while is_next_incoming(tokens, next) {
        let (further, after) = next_incoming(tokens, next)?;
        pairs.push(further)?;
        next = after;
    }
    Ok((pairs, next))
}

/// A phi.
#[tactic(auto, unfolding(crate::specs::Calls::phi))]
pub fn phi<'a>(
    alloc: Global,
    tokens: &[Token<'a>],
    at: usize,
) -> Result<((Span, RawKind<'a>), usize), Trouble>
    ensures { GivesOrMemory tokens.now result (read phi (map lexeme (drop at tokens.now))) }
{
    let (word, at) = word(tokens, at, b"phi")?;
    let (width, at) = ty(tokens, at)?;
    let (pairs, at) = incomings(alloc, tokens, at)?;
    Ok(((word.span, RawKind::Phi(width.item, pairs)), at))
}
