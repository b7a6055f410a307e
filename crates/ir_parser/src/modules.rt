//! Whole texts.

ghost use Rattle.std.specs.Prelude.{◌≡◌, [], ◌∷◌, ◌++◌, Ok, OnOk, drop, map};
ghost use Rattle.grammar.specs.Grammar.{is_next, optional};
ghost use Rattle.grammar.specs.Reading.{read};
ghost use Rattle.ir_lexer.specs.Lexeme.{lexeme};
ghost use Rattle.ir_parser.specs.Tokens.{local};
ghost use Rattle.ir_parser.specs.Module.{par, next_par, some_pars, pars, signature, declare, define, variable, part, functions_of, globals_of, module_text};
ghost use Rattle.ir_parser.specs.Reader.{Gives, GivesOrMemory};

use crate::terms::blocks;
use crate::tokens::{
    Stop, Trouble, global, is_global_next, is_kind_next, is_next, is_word_next, local, mark,
    take_one_of, word,
};
use crate::values::{
    attached, attributes, extras, global_linkage, gvalue, is_type_next, linkage, ret, ty,
};
use ir_lexer::{Token, TokenKind};
use ir_types::items::Items;
use ir_types::name::{Name, Spelling};
use ir_types::span::At;
use ir_types::tree::{Raw, RawFunction, RawGlobal, RawParam, Ty};
use std::alloc::{AllocError, Global};

/// A function or a global.
#[derive(Drop)]
pub enum Member<'a> {
    Function(RawFunction<'a>),
    Global(RawGlobal<'a>),
}

/// The name of a parameter, if one is written.
fn par_name<'a>(tokens: &[Token<'a>], at: usize) -> (Option<At<Name<'a>>>, usize)
    ensures { read (optional local) (map lexeme (drop at tokens.now)) ≡ Ok (result.0, map lexeme (drop result.1 tokens.now)) }
{
    match local(tokens, at) {
        Ok((name, next)) => (Some(name), next),
        Err(_) => (None, at),
    }
}

#[tactic(auto, unfolding(crate::specs::Module::par))]
fn par<'a>(tokens: &[Token<'a>], at: usize) -> Result<(RawParam<'a>, usize), Stop>
    ensures { Gives tokens.now result (read par (map lexeme (drop at tokens.now))) }
{
    let (width, at) = ty(tokens, at)?;
    let at = attributes(tokens, at);
    let (name, at) = par_name(tokens, at);
    let width = width.item;
    Ok((RawParam { width, name }, at))
}

#[tactic(auto, unfolding(crate::specs::Module::next_par))]
fn next_par<'a>(tokens: &[Token<'a>], at: usize) -> Result<(RawParam<'a>, usize), Stop>
    ensures { Gives tokens.now result (read next_par (map lexeme (drop at tokens.now))) }
{
    let (_, at) = mark(tokens, at, b",")?;
    par(tokens, at)
}

#[tactic(auto, unfolding(crate::specs::Module::next_par))]
fn is_next_par(tokens: &[Token], at: usize) -> bool
    ensures { result ≡ is_next next_par (map lexeme (drop at tokens.now)) }
{
    is_next(tokens, at, TokenKind::Punct, b",")
}

/// The parameters, at least one.
#[tactic(auto, unfolding(crate::specs::Module::some_pars))]
fn some_pars<'a>(
    alloc: Global,
    tokens: &[Token<'a>],
    at: usize,
) -> Result<(Items<RawParam<'a>>, usize), Trouble>
    ensures { GivesOrMemory tokens.now result (read some_pars (map lexeme (drop at tokens.now))) }
{
    let mut pars = Items::new(alloc);
    let (first, mut next) = par(tokens, at)?;
    pars.push(first)?;
    while is_next_par(tokens, next) {
        let (further, after) = next_par(tokens, next)?;
        pars.push(further)?;
        next = after;
    }
    Ok((pars, next))
}

#[tactic(auto, unfolding(crate::specs::Module::some_pars, crate::specs::Module::par, crate::specs::Values::int_type))]
fn are_pars_next(tokens: &[Token], at: usize) -> bool
    ensures { result ≡ is_next some_pars (map lexeme (drop at tokens.now)) }
{
    is_type_next(tokens, at)
}

/// The parameters, if any.
#[tactic(auto, unfolding(crate::specs::Module::pars))]
fn pars<'a>(
    alloc: Global,
    tokens: &[Token<'a>],
    at: usize,
) -> Result<(Items<RawParam<'a>>, usize), Trouble>
    ensures { GivesOrMemory tokens.now result (read pars (map lexeme (drop at tokens.now))) }
{
    if are_pars_next(tokens, at) {
        return some_pars(alloc, tokens, at);
    }
    Ok((Items::new(alloc), at))
}

/// What a function gives, its name and its parameters.
#[tactic(auto, unfolding(crate::specs::Module::signature))]
fn signature<'a>(
    alloc: Global,
    tokens: &[Token<'a>],
    at: usize,
) -> Result<((Ty, (At<Spelling<'a>>, Items<RawParam<'a>>)), usize), Trouble>
    ensures { GivesOrMemory tokens.now result (read signature (map lexeme (drop at tokens.now))) }
{
    let at = linkage(tokens, at);
    let at = attributes(tokens, at);
    let (ty, at) = ret(tokens, at)?;
    let (name, at) = global(tokens, at)?;
    let (_, at) = mark(tokens, at, b"(")?;
    let (pars, at) = pars(alloc, tokens, at)?;
    let (_, at) = mark(tokens, at, b")")?;
    let at = extras(tokens, at)?;
    Ok(((ty, (name, pars)), at))
}

#[tactic(auto, unfolding(crate::specs::Module::declare))]
fn declare<'a>(
    alloc: Global,
    tokens: &[Token<'a>],
    at: usize,
) -> Result<(RawFunction<'a>, usize), Trouble>
    ensures { GivesOrMemory tokens.now result (read declare (map lexeme (drop at tokens.now))) }
{
    let (_, at) = word(tokens, at, b"declare")?;
    let ((ret, (name, params)), at) = signature(alloc, tokens, at)?;
    let function = RawFunction {
        name,
        ret,
        params,
        blocks: Items::new(alloc),
    };
    Ok((function, at))
}

#[tactic(auto, unfolding(crate::specs::Module::define))]
fn define<'a>(
    alloc: Global,
    tokens: &[Token<'a>],
    at: usize,
) -> Result<(RawFunction<'a>, usize), Trouble>
    ensures { GivesOrMemory tokens.now result (read define (map lexeme (drop at tokens.now))) }
{
    let (_, at) = word(tokens, at, b"define")?;
    let ((ret, (name, params)), at) = signature(alloc, tokens, at)?;
    let (_, at) = mark(tokens, at, b"{")?;
    let (blocks, at) = blocks(alloc, tokens, at)?;
    let (_, at) = mark(tokens, at, b"}")?;
    let function = RawFunction {
        name,
        ret,
        params,
        blocks,
    };
    Ok((function, at))
}

/// A global variable.
#[tactic(auto, unfolding(crate::specs::Module::variable))]
fn variable<'a>(tokens: &[Token<'a>], at: usize) -> Result<(RawGlobal<'a>, usize), Stop>
    ensures { Gives tokens.now result (read variable (map lexeme (drop at tokens.now))) }
{
    let (name, at) = global(tokens, at)?;
    let (_, at) = mark(tokens, at, b"=")?;
    let at = global_linkage(tokens, at);
    let (_, at) = take_one_of(tokens, at, &[b"global", b"constant"])?;
    let (width, at) = ty(tokens, at)?;
    let (value, at) = gvalue(tokens, at)?;
    let at = attached(tokens, at)?;
    let width = width.item;
    let global = RawGlobal { name, width, value };
    Ok((global, at))
}

/// A function or a global.
#[tactic(auto, unfolding(crate::specs::Module::part, crate::specs::Module::declare, crate::specs::Module::define))]
fn part<'a>(alloc: Global, tokens: &[Token<'a>], at: usize) -> Result<(Member<'a>, usize), Trouble>
    ensures { GivesOrMemory tokens.now result (read part (map lexeme (drop at tokens.now))) }
{
    if is_word_next(tokens, at, b"declare") {
        let (function, at) = declare(alloc, tokens, at)?;
        return Ok((Member::Function(function), at));
    }
    if is_word_next(tokens, at, b"define") {
        let (function, at) = define(alloc, tokens, at)?;
        return Ok((Member::Function(function), at));
    }
    let (global, at) = variable(tokens, at)?;
    Ok((Member::Global(global), at))
}

#[tactic(auto, unfolding(crate::specs::Module::part, crate::specs::Module::declare, crate::specs::Module::define, crate::specs::Module::variable))]
fn is_part_next(tokens: &[Token], at: usize) -> bool
    ensures { result ≡ is_next part (map lexeme (drop at tokens.now)) }
{
    is_word_next(tokens, at, b"declare")
        || is_word_next(tokens, at, b"define")
        || is_global_next(tokens, at)
}

/// Adds a part at the end of its list.
fn put_part<'a>(
    part: Member<'a>,
    functions: &mut Items<RawFunction<'a>>,
    globals: &mut Items<RawGlobal<'a>>,
) -> Result<(), AllocError>
    ensures functions { OnOk result (functions.new ≡ functions.old ++ functions_of (part.entry ∷ [])) }
    ensures globals { OnOk result (globals.new ≡ globals.old ++ globals_of (part.entry ∷ [])) }
{
    match part {
        Member::Function(function) => functions.push(function),
        Member::Global(global) => globals.push(global),
    }
}

/// A whole text.
#[tactic(auto, unfolding(crate::specs::Module::module_text))]
pub fn module_text<'a>(
    alloc: Global,
    tokens: &[Token<'a>],
    at: usize,
) -> Result<(Raw<'a>, usize), Trouble>
    ensures { GivesOrMemory tokens.now result (read module_text (map lexeme (drop at tokens.now))) }
{
    let mut functions = Items::new(alloc);
    let mut globals = Items::new(alloc);
    let mut next = at;
    while is_part_next(tokens, next) {
        let (part, after) = part(alloc, tokens, next)?;
        put_part(part, &mut functions, &mut globals)?;
        next = after;
    }
    Ok((Raw { functions, globals }, next))
}
