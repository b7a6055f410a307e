//! Terminators and blocks, each at the front of a list of tokens.

ghost use Rattle.std.specs.Prelude.{◌≡◌, Ok, drop, map};
ghost use Rattle.grammar.specs.Grammar.{is_next};
ghost use Rattle.grammar.specs.Reading.{read};
ghost use Rattle.ir_lexer.specs.Lexeme.{lexeme};
ghost use Rattle.ir_parser.specs.Terms.{returned, branched, switch_case, cases, switched, bare_term, term, label, block, blocks};
ghost use Rattle.ir_parser.specs.Reader.{Gives, GivesOrMemory};

use crate::instrs::{instrs, is_instr_next};
use crate::tokens::{Stop, Trouble, is_kind_next, is_word_next, mark, take_kind, word};
use crate::values::{attached, cvalue, is_type_next, target, ty, value};
use crate::words::label_name;
use ir_lexer::{Token, TokenKind};
use ir_types::items::Items;
use ir_types::name::Name;
use ir_types::span::{At, Span};
use ir_types::tree::{RawBlock, RawCase, RawTerm};
use std::alloc::Global;

/// What a `ret` returns.
#[tactic(auto, unfolding(crate::specs::Terms::returned))]
fn returned<'a>(tokens: &[Token<'a>], at: usize) -> Result<(RawTerm<'a>, usize), Stop>
    ensures { Gives tokens.now result (read returned (map lexeme (drop at tokens.now))) }
{
    if is_word_next(tokens, at, b"void") {
        let (_, at) = word(tokens, at, b"void")?;
        return Ok((RawTerm::Return(None), at));
    }
    let (width, at) = ty(tokens, at)?;
    let (value, at) = value(tokens, at)?;
    Ok((RawTerm::Return(Some((width.item, value))), at))
}

/// Where a `br` goes.
#[tactic(auto, unfolding(crate::specs::Terms::branched, crate::specs::Values::target))]
fn branched<'a>(tokens: &[Token<'a>], at: usize) -> Result<(RawTerm<'a>, usize), Stop>
    ensures { Gives tokens.now result (read branched (map lexeme (drop at tokens.now))) }
{
    if is_word_next(tokens, at, b"label") {
        let (block, at) = target(tokens, at)?;
        return Ok((RawTerm::Jump(block), at));
    }
    let (_, at) = word(tokens, at, b"i1")?;
    let (condition, at) = value(tokens, at)?;
    let (_, at) = mark(tokens, at, b",")?;
    let (then, at) = target(tokens, at)?;
    let (_, at) = mark(tokens, at, b",")?;
    let (otherwise, at) = target(tokens, at)?;
    Ok((RawTerm::Branch(condition, then, otherwise), at))
}

#[tactic(auto, unfolding(crate::specs::Terms::switch_case))]
fn switch_case<'a>(tokens: &[Token<'a>], at: usize) -> Result<(RawCase<'a>, usize), Stop>
    ensures { Gives tokens.now result (read switch_case (map lexeme (drop at tokens.now))) }
{
    let (width, at) = ty(tokens, at)?;
    let (value, at) = cvalue(tokens, at)?;
    let (_, at) = mark(tokens, at, b",")?;
    let (label, at) = target(tokens, at)?;
    let case = RawCase {
        width,
        value,
        label,
    };
    Ok((case, at))
}

#[tactic(auto, unfolding(crate::specs::Terms::switch_case, crate::specs::Values::int_type))]
fn is_case_next(tokens: &[Token], at: usize) -> bool
    ensures { result ≡ is_next switch_case (map lexeme (drop at tokens.now)) }
{
    is_type_next(tokens, at)
}

/// The cases of a `switch`.
#[tactic(auto, unfolding(crate::specs::Terms::cases))]
fn cases<'a>(
    alloc: Global,
    tokens: &[Token<'a>],
    at: usize,
) -> Result<(Items<RawCase<'a>>, usize), Trouble>
    ensures { GivesOrMemory tokens.now result (read cases (map lexeme (drop at tokens.now))) }
{
    let mut cases = Items::new(alloc);
    let mut next = at;
    while is_case_next(tokens, next) {
        let (case, after) = switch_case(tokens, next)?;
        cases.push(case)?;
        next = after;
    }
    Ok((cases, next))
}

/// What a `switch` has behind its word.
#[tactic(auto, unfolding(crate::specs::Terms::switched))]
fn switched<'a>(
    alloc: Global,
    tokens: &[Token<'a>],
    at: usize,
) -> Result<(RawTerm<'a>, usize), Trouble>
    ensures { GivesOrMemory tokens.now result (read switched (map lexeme (drop at tokens.now))) }
{
    let (width, at) = ty(tokens, at)?;
    let (value, at) = value(tokens, at)?;
    let (_, at) = mark(tokens, at, b",")?;
    let (otherwise, at) = target(tokens, at)?;
    let (_, at) = mark(tokens, at, b"[")?;
    let (cases, at) = cases(alloc, tokens, at)?;
    let (_, at) = mark(tokens, at, b"]")?;
    let term = RawTerm::Switch(width.item, value, otherwise, cases);
    Ok((term, at))
}

#[tactic(auto, unfolding(crate::specs::Terms::bare_term))]
fn bare_term<'a>(
    alloc: Global,
    tokens: &[Token<'a>],
    at: usize,
) -> Result<((Span, RawTerm<'a>), usize), Trouble>
    ensures { GivesOrMemory tokens.now result (read bare_term (map lexeme (drop at tokens.now))) }
{
    if is_word_next(tokens, at, b"ret") {
        let (word, at) = word(tokens, at, b"ret")?;
        let (term, at) = returned(tokens, at)?;
        return Ok(((word.span, term), at));
    }
    if is_word_next(tokens, at, b"br") {
        let (word, at) = word(tokens, at, b"br")?;
        let (term, at) = branched(tokens, at)?;
        return Ok(((word.span, term), at));
    }
    if is_word_next(tokens, at, b"switch") {
        let (word, at) = word(tokens, at, b"switch")?;
        let (term, at) = switched(alloc, tokens, at)?;
        return Ok(((word.span, term), at));
    }
    let (word, at) = word(tokens, at, b"unreachable")?;
    Ok(((word.span, RawTerm::Unreachable), at))
}

/// A terminator with the place of its word.
#[tactic(auto, unfolding(crate::specs::Terms::term))]
fn term<'a>(
    alloc: Global,
    tokens: &[Token<'a>],
    at: usize,
) -> Result<((Span, RawTerm<'a>), usize), Trouble>
    ensures { GivesOrMemory tokens.now result (read term (map lexeme (drop at tokens.now))) }
{
    let (term, at) = bare_term(alloc, tokens, at)?;
    let at = attached(tokens, at)?;
    Ok((term, at))
}

#[tactic(auto, unfolding(crate::specs::Terms::bare_term, crate::specs::Terms::term))]
fn is_term_next(tokens: &[Token], at: usize) -> bool
    ensures { result ≡ is_next term (map lexeme (drop at tokens.now)) }
{
    is_word_next(tokens, at, b"ret")
        || is_word_next(tokens, at, b"br")
        || is_word_next(tokens, at, b"switch")
        || is_word_next(tokens, at, b"unreachable")
}

#[tactic(auto, unfolding(crate::specs::Terms::label))]
fn label<'a>(tokens: &[Token<'a>], at: usize) -> (Option<At<Name<'a>>>, usize)
    ensures { read label (map lexeme (drop at tokens.now)) ≡ Ok (result.0, map lexeme (drop result.1 tokens.now)) }
{
    match take_kind(tokens, at, TokenKind::Label) {
        Ok((label, next)) => {
            let item = label_name(label.text);
            let span = label.span;
            (Some(At { item, span }), next)
        }
        Err(_) => (None, at),
    }
}

#[tactic(auto, unfolding(crate::specs::Terms::block))]
fn block<'a>(
    alloc: Global,
    tokens: &[Token<'a>],
    at: usize,
) -> Result<(RawBlock<'a>, usize), Trouble>
    ensures { GivesOrMemory tokens.now result (read block (map lexeme (drop at tokens.now))) }
{
    let (label, at) = label(tokens, at);
    let (instrs, at) = instrs(alloc, tokens, at)?;
    let ((term_word, term), at) = term(alloc, tokens, at)?;
    let block = RawBlock {
        label,
        instrs,
        term,
        term_word,
    };
    Ok((block, at))
}

/// Whether the next token begins a block.
#[tactic(auto, unfolding(crate::specs::Terms::block, crate::specs::Terms::label, crate::specs::Instrs::instrs))]
fn is_block_next(tokens: &[Token], at: usize) -> bool
    ensures { result ≡ is_next block (map lexeme (drop at tokens.now)) }
{
    is_kind_next(tokens, at, TokenKind::Label)
        || is_instr_next(tokens, at)
        || is_term_next(tokens, at)
}

/// The blocks of a function, at least one.
#[tactic(auto, unfolding(crate::specs::Terms::blocks))]
pub fn blocks<'a>(
    alloc: Global,
    tokens: &[Token<'a>],
    at: usize,
) -> Result<(Items<RawBlock<'a>>, usize), Trouble>
    ensures { GivesOrMemory tokens.now result (read blocks (map lexeme (drop at tokens.now))) }
{
    // Most functions of some texts have one block: no room for more is made ahead.
    let mut blocks = Items::from(Vec::with_capacity(alloc, 1)?);
    let (first, mut next) = block(alloc, tokens, at)?;
    blocks.push(first)?;
    while is_block_next(tokens, next) {
        let (further, after) = block(alloc, tokens, next)?;
        blocks.push(further)?;
        next = after;
    }
    Ok((blocks, next))
}
