//! Types, values, variables and what is dropped, each at the front of a list of tokens.

ghost use Rattle.std.specs.Prelude.{◌≡◌, Ok, drop, map};
ghost use Rattle.grammar.specs.Grammar.{is_next};
ghost use Rattle.grammar.specs.Reading.{read};
ghost use Rattle.mc_num.specs.declared.op.Width.TheVariants.{I1};
ghost use Rattle.ir_lexer.specs.Lexeme.{lexeme};
ghost use Rattle.ir_parser.specs.Tokens.{meaning, dropped, one_of};
ghost use Rattle.ir_parser.specs.Values.{widths, int_type, ret, cvalue, gvalue, value, addr, target, linkage_words, attribute_words, extra_words, global_words, any_of, detail, attach, attached, extra, extras};
ghost use Rattle.ir_parser.specs.Reader.{Gives, Passes};

use crate::tokens::{
    Stop, global, is_global_next, is_group_next, is_kind_next, is_next, is_one_of_next,
    is_word_next, local, mark, skip_words, take_group, take_kind, take_one_of, word,
};
use crate::words::{literal, local_name};
use ir_lexer::{Token, TokenKind};
use ir_types::name::Name;
use ir_types::span::At;
use ir_types::tree::{Address, RawValue, Ty};
use mc_num::Width;

fn width_of(text: &[u8]) -> Width
    ensures { result ≡ meaning widths I1 text.now }
{
    match text {
        b"i8" => Width::I8,
        b"i16" => Width::I16,
        b"i32" => Width::I32,
        b"i64" => Width::I64,
        _ => Width::I1,
    }
}

/// Whether the next token is a type.
#[tactic(auto, unfolding(crate::specs::Values::int_type))]
pub fn is_type_next(tokens: &[Token], at: usize) -> bool
    ensures { result ≡ is_next int_type (map lexeme (drop at tokens.now)) }
{
    is_one_of_next(tokens, at, &[b"i1", b"i8", b"i16", b"i32", b"i64"])
}

/// A type.
#[tactic(auto, unfolding(crate::specs::Values::int_type))]
pub fn ty(tokens: &[Token], at: usize) -> Result<(At<Width>, usize), Stop>
    ensures { Gives tokens.now result (read int_type (map lexeme (drop at tokens.now))) }
{
    let (word, at) = take_one_of(tokens, at, &[b"i1", b"i8", b"i16", b"i32", b"i64"])?;
    let item = width_of(word.text);
    let span = word.span;
    Ok((At { item, span }, at))
}

/// What a function gives.
#[tactic(auto, unfolding(crate::specs::Values::ret))]
pub fn ret(tokens: &[Token], at: usize) -> Result<(Ty, usize), Stop>
    ensures { Gives tokens.now result (read ret (map lexeme (drop at tokens.now))) }
{
    if is_type_next(tokens, at) {
        let (width, at) = ty(tokens, at)?;
        return Ok((Ty::Int(width.item), at));
    }
    let (_, at) = word(tokens, at, b"void")?;
    Ok((Ty::Void, at))
}

/// A value that is neither a local nor `undef` or `poison`.
#[tactic(auto, unfolding(crate::specs::Values::cvalue))]
pub fn cvalue<'a>(tokens: &[Token<'a>], at: usize) -> Result<(At<RawValue<'a>>, usize), Stop>
    ensures { Gives tokens.now result (read cvalue (map lexeme (drop at tokens.now))) }
{
    if is_kind_next(tokens, at, TokenKind::Number) {
        let (number, at) = take_kind(tokens, at, TokenKind::Number)?;
        let item = literal(number.text);
        let span = number.span;
        return Ok((At { item, span }, at));
    }
    if is_word_next(tokens, at, b"true") {
        let (word, at) = word(tokens, at, b"true")?;
        let item = RawValue::Bool(true);
        let span = word.span;
        return Ok((At { item, span }, at));
    }
    let (word, at) = word(tokens, at, b"false")?;
    let item = RawValue::Bool(false);
    let span = word.span;
    Ok((At { item, span }, at))
}

#[tactic(auto, unfolding(crate::specs::Values::cvalue))]
fn is_cvalue_next(tokens: &[Token], at: usize) -> bool
    ensures { result ≡ is_next cvalue (map lexeme (drop at tokens.now)) }
{
    is_kind_next(tokens, at, TokenKind::Number)
        || is_word_next(tokens, at, b"true")
        || is_word_next(tokens, at, b"false")
}

/// The first value of a global.
#[tactic(auto, unfolding(crate::specs::Values::gvalue))]
pub fn gvalue<'a>(tokens: &[Token<'a>], at: usize) -> Result<(At<RawValue<'a>>, usize), Stop>
    ensures { Gives tokens.now result (read gvalue (map lexeme (drop at tokens.now))) }
{
    if is_cvalue_next(tokens, at) {
        return cvalue(tokens, at);
    }
    let (word, at) = take_one_of(tokens, at, &[b"undef", b"poison"])?;
    let item = RawValue::Zero;
    let span = word.span;
    Ok((At { item, span }, at))
}

/// A value.
#[tactic(auto, unfolding(crate::specs::Values::value))]
pub fn value<'a>(tokens: &[Token<'a>], at: usize) -> Result<(At<RawValue<'a>>, usize), Stop>
    ensures { Gives tokens.now result (read value (map lexeme (drop at tokens.now))) }
{
    if is_kind_next(tokens, at, TokenKind::Local) {
        let (name, at) = take_kind(tokens, at, TokenKind::Local)?;
        let item = RawValue::Local(local_name(name.text));
        let span = name.span;
        return Ok((At { item, span }, at));
    }
    gvalue(tokens, at)
}

/// A variable.
#[tactic(auto, unfolding(crate::specs::Values::addr))]
pub fn addr<'a>(tokens: &[Token<'a>], at: usize) -> Result<(At<Address<'a>>, usize), Stop>
    ensures { Gives tokens.now result (read addr (map lexeme (drop at tokens.now))) }
{
    if is_kind_next(tokens, at, TokenKind::Local) {
        let (name, at) = local(tokens, at)?;
        let span = name.span;
        let item = Address::Local(name.item);
        return Ok((At { item, span }, at));
    }
    let (name, at) = global(tokens, at)?;
    let span = name.span;
    let item = Address::Global(name.item);
    Ok((At { item, span }, at))
}

/// A block that is gone to.
#[tactic(auto, unfolding(crate::specs::Values::target))]
pub fn target<'a>(tokens: &[Token<'a>], at: usize) -> Result<(At<Name<'a>>, usize), Stop>
    ensures { Gives tokens.now result (read target (map lexeme (drop at tokens.now))) }
{
    let (_, at) = word(tokens, at, b"label")?;
    local(tokens, at)
}

/// The index behind the linkage of a function.
pub fn linkage(tokens: &[Token], at: usize) -> usize
    ensures { read (any_of linkage_words) (map lexeme (drop at tokens.now)) ≡ Ok (tt, map lexeme (drop result tokens.now)) }
{
    skip_words(
        tokens,
        at,
        &[
            b"dso_local",
            b"internal",
            b"private",
            b"hidden",
            b"protected",
            b"ccc",
        ],
    )
}

/// The index behind the attributes of a value.
pub fn attributes(tokens: &[Token], at: usize) -> usize
    ensures { read (any_of attribute_words) (map lexeme (drop at tokens.now)) ≡ Ok (tt, map lexeme (drop result tokens.now)) }
{
    skip_words(tokens, at, &[b"noundef", b"signext", b"zeroext"])
}

/// The index behind the linkage of a global.
pub fn global_linkage(tokens: &[Token], at: usize) -> usize
    ensures { read (any_of global_words) (map lexeme (drop at tokens.now)) ≡ Ok (tt, map lexeme (drop result tokens.now)) }
{
    skip_words(
        tokens,
        at,
        &[
            b"dso_local",
            b"internal",
            b"private",
            b"hidden",
            b"protected",
            b"unnamed_addr",
            b"local_unnamed_addr",
        ],
    )
}

#[tactic(auto, unfolding(crate::specs::Values::detail))]
fn detail(tokens: &[Token], at: usize) -> Result<usize, Stop>
    ensures { Passes tokens.now result (read detail (map lexeme (drop at tokens.now))) }
{
    if is_word_next(tokens, at, b"align") {
        let (_, at) = word(tokens, at, b"align")?;
        let (_, at) = take_kind(tokens, at, TokenKind::Number)?;
        return Ok(at);
    }
    let (_, at) = take_kind(tokens, at, TokenKind::Bang)?;
    let (_, at) = take_kind(tokens, at, TokenKind::Bang)?;
    Ok(at)
}

#[tactic(auto, unfolding(crate::specs::Values::attach))]
fn is_attach_next(tokens: &[Token], at: usize) -> bool
    ensures { result ≡ is_next attach (map lexeme (drop at tokens.now)) }
{
    is_next(tokens, at, TokenKind::Punct, b",")
}

#[tactic(auto, unfolding(crate::specs::Values::attach))]
fn attach(tokens: &[Token], at: usize) -> Result<usize, Stop>
    ensures { Passes tokens.now result (read attach (map lexeme (drop at tokens.now))) }
{
    let (_, at) = mark(tokens, at, b",")?;
    detail(tokens, at)
}

/// The index behind all that is attached to an instruction.
#[tactic(auto, unfolding(crate::specs::Values::attached))]
pub fn attached(tokens: &[Token], at: usize) -> Result<usize, Stop>
    ensures { Passes tokens.now result (read attached (map lexeme (drop at tokens.now))) }
{
    let mut next = at;
    while is_attach_next(tokens, next) {
        next = attach(tokens, next)?;
    }
    Ok(next)
}

#[tactic(auto, unfolding(crate::specs::Values::detail))]
fn is_detail_next(tokens: &[Token], at: usize) -> bool
    ensures { result ≡ is_next detail (map lexeme (drop at tokens.now)) }
{
    is_word_next(tokens, at, b"align") || is_kind_next(tokens, at, TokenKind::Bang)
}

const EXTRA_WORDS: [&[u8]; 10] = [
    b"unnamed_addr",
    b"local_unnamed_addr",
    b"nounwind",
    b"noinline",
    b"optnone",
    b"uwtable",
    b"mustprogress",
    b"noreturn",
    b"willreturn",
    b"norecurse",
];

fn is_extra_word_next(tokens: &[Token], at: usize) -> bool
    ensures { result ≡ is_next (one_of extra_words) (map lexeme (drop at tokens.now)) }
{
    is_one_of_next(tokens, at, &EXTRA_WORDS)
}

fn extra_word(tokens: &[Token], at: usize) -> Result<usize, Stop>
    ensures { Passes tokens.now result (read (dropped (one_of extra_words)) (map lexeme (drop at tokens.now))) }
{
    let (_, at) = take_one_of(tokens, at, &EXTRA_WORDS)?;
    Ok(at)
}

#[tactic(auto, unfolding(crate::specs::Values::extra))]
fn is_extra_next(tokens: &[Token], at: usize) -> bool
    ensures { result ≡ is_next extra (map lexeme (drop at tokens.now)) }
{
    is_extra_word_next(tokens, at) || is_group_next(tokens, at) || is_detail_next(tokens, at)
}

#[tactic(auto, unfolding(crate::specs::Values::extra))]
fn one_extra(tokens: &[Token], at: usize) -> Result<usize, Stop>
    ensures { Passes tokens.now result (read extra (map lexeme (drop at tokens.now))) }
{
    if is_extra_word_next(tokens, at) {
        return extra_word(tokens, at);
    }
    if is_group_next(tokens, at) {
        let (_, at) = take_group(tokens, at)?;
        return Ok(at);
    }
    detail(tokens, at)
}

/// The index behind all that may stand behind parameters or arguments.
#[tactic(auto, unfolding(crate::specs::Values::extras))]
pub fn extras(tokens: &[Token], at: usize) -> Result<usize, Stop>
    ensures { Passes tokens.now result (read extras (map lexeme (drop at tokens.now))) }
{
    let mut next = at;
    while is_extra_next(tokens, next) {
        next = one_extra(tokens, next)?;
    }
    Ok(next)
}
