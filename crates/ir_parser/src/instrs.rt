//! Instructions, each at the front of a list of tokens.

ghost use Rattle.std.specs.Prelude.{◌≡◌, Ok, drop, map};
ghost use Rattle.grammar.specs.Grammar.{is_next};
ghost use Rattle.grammar.specs.Reading.{read};
ghost use Rattle.mc_num.specs.declared.op.Bin.TheVariants.{Add};
ghost use Rattle.mc_num.specs.declared.op.Pred.TheVariants.{Eq};
ghost use Rattle.mc_num.specs.declared.op.Cast.TheVariants.{Bitcast};
ghost use Rattle.ir_lexer.specs.Lexeme.{lexeme};
ghost use Rattle.ir_parser.specs.Tokens.{meaning};
ghost use Rattle.ir_parser.specs.Instrs.{bins, preds, casts, binop, predicate, castop, flags, alloca, load, binary, compare, convert, select, computing, giving, store, result_name, giving_instr, storing_instr, bare_instr, instr, instrs};
ghost use Rattle.ir_parser.specs.Reader.{Gives, GivesOrMemory};

use crate::calls::{call, is_call_next, phi};
use crate::tokens::{
    Stop, Trouble, is_kind_next, is_one_of_next, is_word_next, local, mark, skip_words,
    take_one_of, word,
};
use crate::values::{addr, attached, ty, value};
use ir_lexer::{Token, TokenKind};
use ir_types::items::Items;
use ir_types::name::Name;
use ir_types::span::{At, Span};
use ir_types::tree::{RawInstr, RawKind};
use mc_num::{Bin, Cast, Pred};
use std::alloc::Global;

const BINS: [&[u8]; 13] = [
    b"add", b"sub", b"mul", b"udiv", b"sdiv", b"urem", b"srem", b"shl", b"lshr", b"ashr", b"and",
    b"or", b"xor",
];

const PREDS: [&[u8]; 10] = [
    b"eq", b"ne", b"ugt", b"uge", b"ult", b"ule", b"sgt", b"sge", b"slt", b"sle",
];

const CASTS: [&[u8]; 4] = [b"zext", b"sext", b"trunc", b"bitcast"];

fn bin_of(text: &[u8]) -> Bin
    ensures { result ≡ meaning bins Add text.now }
{
    match text {
        b"sub" => Bin::Sub,
        b"mul" => Bin::Mul,
        b"udiv" => Bin::UDiv,
        b"sdiv" => Bin::SDiv,
        b"urem" => Bin::URem,
        b"srem" => Bin::SRem,
        b"shl" => Bin::Shl,
        b"lshr" => Bin::LShr,
        b"ashr" => Bin::AShr,
        b"and" => Bin::And,
        b"or" => Bin::Or,
        b"xor" => Bin::Xor,
        _ => Bin::Add,
    }
}

fn pred_of(text: &[u8]) -> Pred
    ensures { result ≡ meaning preds Eq text.now }
{
    match text {
        b"ne" => Pred::Ne,
        b"ugt" => Pred::Ugt,
        b"uge" => Pred::Uge,
        b"ult" => Pred::Ult,
        b"ule" => Pred::Ule,
        b"sgt" => Pred::Sgt,
        b"sge" => Pred::Sge,
        b"slt" => Pred::Slt,
        b"sle" => Pred::Sle,
        _ => Pred::Eq,
    }
}

fn cast_of(text: &[u8]) -> Cast
    ensures { result ≡ meaning casts Bitcast text.now }
{
    match text {
        b"zext" => Cast::Zext,
        b"sext" => Cast::Sext,
        b"trunc" => Cast::Trunc,
        _ => Cast::Bitcast,
    }
}

#[tactic(auto, unfolding(crate::specs::Instrs::binop))]
fn is_binop_next(tokens: &[Token], at: usize) -> bool
    ensures { result ≡ is_next binop (map lexeme (drop at tokens.now)) }
{
    is_one_of_next(tokens, at, &BINS)
}

#[tactic(auto, unfolding(crate::specs::Instrs::binop))]
fn binop(tokens: &[Token], at: usize) -> Result<(At<Bin>, usize), Stop>
    ensures { Gives tokens.now result (read binop (map lexeme (drop at tokens.now))) }
{
    let (word, at) = take_one_of(tokens, at, &BINS)?;
    let item = bin_of(word.text);
    let span = word.span;
    Ok((At { item, span }, at))
}

#[tactic(auto, unfolding(crate::specs::Instrs::predicate))]
fn predicate(tokens: &[Token], at: usize) -> Result<(At<Pred>, usize), Stop>
    ensures { Gives tokens.now result (read predicate (map lexeme (drop at tokens.now))) }
{
    let (word, at) = take_one_of(tokens, at, &PREDS)?;
    let item = pred_of(word.text);
    let span = word.span;
    Ok((At { item, span }, at))
}

#[tactic(auto, unfolding(crate::specs::Instrs::castop))]
fn is_castop_next(tokens: &[Token], at: usize) -> bool
    ensures { result ≡ is_next castop (map lexeme (drop at tokens.now)) }
{
    is_one_of_next(tokens, at, &CASTS)
}

#[tactic(auto, unfolding(crate::specs::Instrs::castop))]
fn castop(tokens: &[Token], at: usize) -> Result<(At<Cast>, usize), Stop>
    ensures { Gives tokens.now result (read castop (map lexeme (drop at tokens.now))) }
{
    let (word, at) = take_one_of(tokens, at, &CASTS)?;
    let item = cast_of(word.text);
    let span = word.span;
    Ok((At { item, span }, at))
}

/// The index behind the flags of an operation.
#[tactic(auto, unfolding(crate::specs::Instrs::flags))]
fn flags(tokens: &[Token], at: usize) -> usize
    ensures { read flags (map lexeme (drop at tokens.now)) ≡ Ok (tt, map lexeme (drop result tokens.now)) }
{
    skip_words(
        tokens,
        at,
        &[b"nuw", b"nsw", b"exact", b"disjoint", b"nneg", b"samesign"],
    )
}

#[tactic(auto, unfolding(crate::specs::Instrs::alloca))]
fn alloca<'a>(tokens: &[Token<'a>], at: usize) -> Result<((Span, RawKind<'a>), usize), Stop>
    ensures { Gives tokens.now result (read alloca (map lexeme (drop at tokens.now))) }
{
    let (word, at) = word(tokens, at, b"alloca")?;
    let (width, at) = ty(tokens, at)?;
    Ok(((word.span, RawKind::Alloca(width.item)), at))
}

#[tactic(auto, unfolding(crate::specs::Instrs::load))]
fn load<'a>(tokens: &[Token<'a>], at: usize) -> Result<((Span, RawKind<'a>), usize), Stop>
    ensures { Gives tokens.now result (read load (map lexeme (drop at tokens.now))) }
{
    let (load, at) = word(tokens, at, b"load")?;
    let (width, at) = ty(tokens, at)?;
    let (_, at) = mark(tokens, at, b",")?;
    let (_, at) = word(tokens, at, b"ptr")?;
    let (address, at) = addr(tokens, at)?;
    Ok(((load.span, RawKind::Load(width.item, address)), at))
}

#[tactic(auto, unfolding(crate::specs::Instrs::binary))]
fn binary<'a>(tokens: &[Token<'a>], at: usize) -> Result<((Span, RawKind<'a>), usize), Stop>
    ensures { Gives tokens.now result (read binary (map lexeme (drop at tokens.now))) }
{
    let (bin, at) = binop(tokens, at)?;
    let at = flags(tokens, at);
    let (width, at) = ty(tokens, at)?;
    let (left, at) = value(tokens, at)?;
    let (_, at) = mark(tokens, at, b",")?;
    let (right, at) = value(tokens, at)?;
    let kind = RawKind::Bin(bin.item, width.item, left, right);
    Ok(((bin.span, kind), at))
}

#[tactic(auto, unfolding(crate::specs::Instrs::compare))]
fn compare<'a>(tokens: &[Token<'a>], at: usize) -> Result<((Span, RawKind<'a>), usize), Stop>
    ensures { Gives tokens.now result (read compare (map lexeme (drop at tokens.now))) }
{
    let (word, at) = word(tokens, at, b"icmp")?;
    let at = flags(tokens, at);
    let (pred, at) = predicate(tokens, at)?;
    let (width, at) = ty(tokens, at)?;
    let (left, at) = value(tokens, at)?;
    let (_, at) = mark(tokens, at, b",")?;
    let (right, at) = value(tokens, at)?;
    let kind = RawKind::Icmp(pred.item, width.item, left, right);
    Ok(((word.span, kind), at))
}

#[tactic(auto, unfolding(crate::specs::Instrs::convert))]
fn convert<'a>(tokens: &[Token<'a>], at: usize) -> Result<((Span, RawKind<'a>), usize), Stop>
    ensures { Gives tokens.now result (read convert (map lexeme (drop at tokens.now))) }
{
    let (cast, at) = castop(tokens, at)?;
    let at = flags(tokens, at);
    let (width, at) = ty(tokens, at)?;
    let (converted, at) = value(tokens, at)?;
    let (_, at) = word(tokens, at, b"to")?;
    let (to, at) = ty(tokens, at)?;
    let kind = RawKind::Cast(cast.item, width.item, converted, to);
    Ok(((cast.span, kind), at))
}

#[tactic(auto, unfolding(crate::specs::Instrs::select))]
fn select<'a>(tokens: &[Token<'a>], at: usize) -> Result<((Span, RawKind<'a>), usize), Stop>
    ensures { Gives tokens.now result (read select (map lexeme (drop at tokens.now))) }
{
    let (select, at) = word(tokens, at, b"select")?;
    let (_, at) = word(tokens, at, b"i1")?;
    let (condition, at) = value(tokens, at)?;
    let (_, at) = mark(tokens, at, b",")?;
    let (width, at) = ty(tokens, at)?;
    let (left, at) = value(tokens, at)?;
    let (_, at) = mark(tokens, at, b",")?;
    let (second, at) = ty(tokens, at)?;
    let (right, at) = value(tokens, at)?;
    let kind = RawKind::Select(condition, width.item, left, second, right);
    Ok(((select.span, kind), at))
}

#[tactic(auto, unfolding(crate::specs::Instrs::store))]
fn store<'a>(tokens: &[Token<'a>], at: usize) -> Result<((Span, RawKind<'a>), usize), Stop>
    ensures { Gives tokens.now result (read store (map lexeme (drop at tokens.now))) }
{
    let (store, at) = word(tokens, at, b"store")?;
    let (width, at) = ty(tokens, at)?;
    let (stored, at) = value(tokens, at)?;
    let (_, at) = mark(tokens, at, b",")?;
    let (_, at) = word(tokens, at, b"ptr")?;
    let (address, at) = addr(tokens, at)?;
    let kind = RawKind::Store(width.item, stored, address);
    Ok(((store.span, kind), at))
}

/// An operation that gives a result and needs no memory.
#[tactic(auto, unfolding(crate::specs::Instrs::computing, crate::specs::Instrs::binary, crate::specs::Instrs::compare, crate::specs::Instrs::convert, crate::specs::Instrs::binop, crate::specs::Instrs::castop))]
fn computing<'a>(tokens: &[Token<'a>], at: usize) -> Result<((Span, RawKind<'a>), usize), Stop>
    ensures { Gives tokens.now result (read computing (map lexeme (drop at tokens.now))) }
{
    if is_binop_next(tokens, at) {
        return binary(tokens, at);
    }
    if is_word_next(tokens, at, b"icmp") {
        return compare(tokens, at);
    }
    if is_castop_next(tokens, at) {
        return convert(tokens, at);
    }
    select(tokens, at)
}

#[tactic(auto, unfolding(crate::specs::Instrs::computing, crate::specs::Instrs::binary, crate::specs::Instrs::compare, crate::specs::Instrs::convert, crate::specs::Instrs::select, crate::specs::Instrs::binop, crate::specs::Instrs::castop))]
fn is_computing_next(tokens: &[Token], at: usize) -> bool
    ensures { result ≡ is_next computing (map lexeme (drop at tokens.now)) }
{
    is_binop_next(tokens, at)
        || is_word_next(tokens, at, b"icmp")
        || is_castop_next(tokens, at)
        || is_word_next(tokens, at, b"select")
}

/// What gives a result.
#[tactic(auto, unfolding(crate::specs::Instrs::giving, crate::specs::Instrs::alloca, crate::specs::Instrs::load))]
fn giving<'a>(
    alloc: Global,
    tokens: &[Token<'a>],
    at: usize,
) -> Result<((Span, RawKind<'a>), usize), Trouble>
    ensures { GivesOrMemory tokens.now result (read giving (map lexeme (drop at tokens.now))) }
{
    if is_word_next(tokens, at, b"alloca") {
        return Ok(alloca(tokens, at)?);
    }
    if is_word_next(tokens, at, b"load") {
        return Ok(load(tokens, at)?);
    }
    if is_computing_next(tokens, at) {
        return Ok(computing(tokens, at)?);
    }
    if is_call_next(tokens, at) {
        return call(alloc, tokens, at);
    }
    phi(alloc, tokens, at)
}

#[tactic(auto, unfolding(crate::specs::Instrs::giving, crate::specs::Instrs::alloca, crate::specs::Instrs::load, crate::specs::Calls::phi))]
fn is_giving_next(tokens: &[Token], at: usize) -> bool
    ensures { result ≡ is_next giving (map lexeme (drop at tokens.now)) }
{
    is_word_next(tokens, at, b"alloca")
        || is_word_next(tokens, at, b"load")
        || is_computing_next(tokens, at)
        || is_call_next(tokens, at)
        || is_word_next(tokens, at, b"phi")
}

/// The name of a result, if one is written.
#[tactic(auto, unfolding(crate::specs::Instrs::result_name))]
fn result_name<'a>(tokens: &[Token<'a>], at: usize) -> Result<(Option<At<Name<'a>>>, usize), Stop>
    ensures { Gives tokens.now result (read result_name (map lexeme (drop at tokens.now))) }
{
    if is_kind_next(tokens, at, TokenKind::Local) {
        let (name, at) = local(tokens, at)?;
        let (_, at) = mark(tokens, at, b"=")?;
        return Ok((Some(name), at));
    }
    Ok((None, at))
}

#[tactic(auto, unfolding(crate::specs::Instrs::giving_instr, crate::specs::Instrs::result_name))]
fn is_giving_instr_next(tokens: &[Token], at: usize) -> bool
    ensures { result ≡ is_next giving_instr (map lexeme (drop at tokens.now)) }
{
    is_kind_next(tokens, at, TokenKind::Local) || is_giving_next(tokens, at)
}

#[tactic(auto, unfolding(crate::specs::Instrs::giving_instr))]
fn giving_instr<'a>(
    alloc: Global,
    tokens: &[Token<'a>],
    at: usize,
) -> Result<(RawInstr<'a>, usize), Trouble>
    ensures { GivesOrMemory tokens.now result (read giving_instr (map lexeme (drop at tokens.now))) }
{
    let (result, at) = result_name(tokens, at)?;
    let ((word, kind), at) = giving(alloc, tokens, at)?;
    Ok((RawInstr { result, word, kind }, at))
}

#[tactic(auto, unfolding(crate::specs::Instrs::storing_instr))]
fn storing_instr<'a>(tokens: &[Token<'a>], at: usize) -> Result<(RawInstr<'a>, usize), Stop>
    ensures { Gives tokens.now result (read storing_instr (map lexeme (drop at tokens.now))) }
{
    let ((word, kind), at) = store(tokens, at)?;
    let result = None;
    Ok((RawInstr { result, word, kind }, at))
}

#[tactic(auto, unfolding(crate::specs::Instrs::bare_instr))]
fn bare_instr<'a>(
    alloc: Global,
    tokens: &[Token<'a>],
    at: usize,
) -> Result<(RawInstr<'a>, usize), Trouble>
    ensures { GivesOrMemory tokens.now result (read bare_instr (map lexeme (drop at tokens.now))) }
{
    if is_giving_instr_next(tokens, at) {
        return giving_instr(alloc, tokens, at);
    }
    Ok(storing_instr(tokens, at)?)
}

/// An instruction with what is attached to it.
#[tactic(auto, unfolding(crate::specs::Instrs::instr))]
fn instr<'a>(
    alloc: Global,
    tokens: &[Token<'a>],
    at: usize,
) -> Result<(RawInstr<'a>, usize), Trouble>
    ensures { GivesOrMemory tokens.now result (read instr (map lexeme (drop at tokens.now))) }
{
    let (instr, at) = bare_instr(alloc, tokens, at)?;
    let at = attached(tokens, at)?;
    Ok((instr, at))
}

#[tactic(auto, unfolding(crate::specs::Instrs::bare_instr, crate::specs::Instrs::storing_instr, crate::specs::Instrs::store))]
fn is_bare_instr_next(tokens: &[Token], at: usize) -> bool
    ensures { result ≡ is_next bare_instr (map lexeme (drop at tokens.now)) }
{
    is_giving_instr_next(tokens, at) || is_word_next(tokens, at, b"store")
}

/// Whether the next token begins an instruction.
#[tactic(auto, using(crate::proofs::Begins::instr_begins))]
pub fn is_instr_next(tokens: &[Token], at: usize) -> bool
    ensures { result ≡ is_next instr (map lexeme (drop at tokens.now)) }
{
    is_bare_instr_next(tokens, at)
}

/// The instructions up to where no further one begins.
#[tactic(auto, unfolding(crate::specs::Instrs::instrs))]
pub fn instrs<'a>(
    alloc: Global,
    tokens: &[Token<'a>],
    at: usize,
) -> Result<(Items<RawInstr<'a>>, usize), Trouble>
    ensures { GivesOrMemory tokens.now result (read instrs (map lexeme (drop at tokens.now))) }
{
    let mut instrs = Items::new(alloc);
    let mut next = at;
    while is_instr_next(tokens, next) {
        let (instr, after) = instr(alloc, tokens, next)?;
        instrs.push(instr)?;
        next = after;
    }
    Ok((instrs, next))
}
