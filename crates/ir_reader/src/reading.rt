//! Reading of a text.
ghost use Rattle.std.specs.Prelude.{◌≡◌, ◌≤◌, ◌^◌, length, All, IfOk};
ghost use Rattle.ir_types.specs.Limits.{IsWithinLimits};
ghost use Rattle.ir_types.specs.WellFormed.{IsWellFormed};
ghost use Rattle.ir_reader.specs.Reading.{Tells, ReadsBack};
ghost use Rattle.ir_reader.specs.Causes.{cause_of_lex, cause_of_parse, cause_of_check};

use crate::laws::reads_back;
use ir_check::{CheckError, check};
use ir_lexer::{LexError, end_of, lex};
use ir_parser::{ParseError, parse};
use ir_types::module::Module;
use ir_types::rules::Problem;
use ir_types::span::Span;
use std::alloc::Global;
use thiserror::Error;
use tree_rules::checked_trees;

/// Why a text is refused, and where.
#[derive(Clone, Copy, Debug, PartialEq, Eq)]
pub enum Refusal {
    /// The first byte that starts no token.
    BadByte(Span, u8),
    /// The first token at which the grammar can't go on, or the end.
    Syntax(Span),
    /// The same, where the language goes on at this token, but not the part of it that is accepted.
    OutOfProfile(Span),
    /// The first broken rule.
    Broken(Problem),
}

/// Why a text is not read.
#[derive(Clone, Copy, Debug, PartialEq, Eq, Error)]
pub enum ReadError {
    #[error("refused")]
    Refused(Refusal),
    #[error("out of memory")]
    NoMemory,
}

impl From<LexError> for ReadError {
    ghost from_gives = { λ e cause. cause ≡ cause_of_lex e };

    fn from(error: LexError) -> ReadError {
        match error {
            LexError::BadByte(span, byte) => ReadError::Refused(Refusal::BadByte(span, byte)),
            LexError::NoMemory => ReadError::NoMemory,
        }
    }
}

impl From<ParseError> for ReadError {
    ghost from_gives = { λ e cause. cause ≡ cause_of_parse e };

    fn from(error: ParseError) -> ReadError {
        match error {
            ParseError::Syntax(span) => ReadError::Refused(Refusal::Syntax(span)),
            ParseError::OutOfProfile(span) => ReadError::Refused(Refusal::OutOfProfile(span)),
            ParseError::NoMemory => ReadError::NoMemory,
        }
    }
}

impl From<CheckError> for ReadError {
    ghost from_gives = { λ e cause. cause ≡ cause_of_check e };

    fn from(error: CheckError) -> ReadError {
        match error {
            CheckError::Broken(problem) => ReadError::Refused(Refusal::Broken(problem)),
            CheckError::NoMemory => ReadError::NoMemory,
        }
    }
}

/// The module that a text means. The text has at most 2^26 bytes.
///
/// `Refused` comes exactly where a byte starts no token, the grammar stops, or the tree breaks a rule, with the first
/// of these in this order and its place; `NoMemory` where an allocation was refused.
pub fn read<'a>(alloc: Global, source: &'a [u8]) -> Result<Module<'a>, ReadError>
    requires { length source.now ≤ 2 ^ 26 }
    // The answer is the one that the text has.
    ensures answer { Tells source.now result }
    ensures limits { IfOk result (λ m. All IsWithinLimits m.functions) }
    // Its canonical text reads back.
    ensures back { IfOk result ReadsBack }
{
    let tokens = lex(alloc, source)?;
    let tree = parse(alloc, &tokens, end_of(source))?;
    drop(tokens);
    let program = check(alloc, &tree)?;
    checked_trees();
    reads_back();
    Ok(program)
}
