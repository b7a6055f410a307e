//! The tree of a whole list of tokens.

ghost use Rattle.std.specs.Prelude.{◌≡◌, ◌≤◌, List, length, map, take, drop, All, IfOk};
ghost use Rattle.grammar.specs.Grammar.{SpellsAll, IsDetermined};
ghost use Rattle.ir_lexer.specs.Lexeme.{Lexeme, lexeme};
ghost use Rattle.ir_lexer.specs.Texts.{IsText};
ghost use Rattle.ir_types.specs.Written.{IsSpelledTree};
ghost use Rattle.ir_types.specs.declared.tree.Raw.{Raw};
ghost use Rattle.ir_parser.specs.Module.{module_text};
ghost use Rattle.ir_types.specs.Size.{items};
ghost use Rattle.ir_parser.specs.Answers.{IsReadAs, StopsSo, Names, place_at};

use crate::modules::module_text;
use crate::profile::is_out;
use crate::tokens::Trouble;
use ir_lexer::Token;
use ir_types::span::Span;
use ir_types::tree;
use std::alloc::Global;

/// Why tokens spell no tree.
#[derive(Clone, Copy)]
pub enum ParseError {
    /// The place of the first token at which the grammar can't go on, or the end.
    Syntax(Span),
    /// The place of such a token, where LLVM's language has it and this grammar doesn't.
    OutOfProfile(Span),
    /// An allocation was refused.
    NoMemory,
}

/// The tree that the tokens spell, all of them. `end` is the empty span at the end of the source. The tokens are walked
/// once by index, with a function for each phrase of the grammar (recursive descent, here without recursion).
///
/// `Syntax` and `OutOfProfile` come exactly where no tree is spelled, with the place of the first token at which the
/// grammar can't go on, or `end`; to tell which of both, the tokens before that place may be read again. `NoMemory`
/// comes where an allocation was refused.
pub fn parse<'a>(
    alloc: Global,
    tokens: &[Token<'a>],
    end: Span,
) -> Result<tree::Raw<'a>, ParseError>
    // What is read is spelled so.
    ensures found { IfOk result (λ raw. SpellsAll module_text (map lexeme tokens.now) raw) }
    // What is spelled so is read, unless memory runs out.
    ensures only { (tree : Raw) → SpellsAll module_text (map lexeme tokens.now) tree → IsReadAs tree result }
    // The place of a refusal is the stop, and the profile tells which refusal it is.
    ensures stop { StopsSo (map lexeme tokens.now) end result }
    // The tree has no more items than there are tokens.
    ensures few { IfOk result (λ raw. items raw ≤ length tokens.now) }
    // Its names can be spelled, since its tokens are, and no type or value stands where the grammar has none.
    ensures spelled { All (λ t. IsText t.kind t.text.now) tokens.now → IfOk result IsSpelledTree }
{
    match module_text(alloc, tokens, 0) {
        Ok((raw, at)) => {
            if at < tokens.len() {
                return Err(refusal(alloc, tokens, at, end));
            }
            Ok(raw)
        }
        Err(Trouble::Stopped(stop)) => Err(refusal(alloc, tokens, stop.at, end)),
        Err(Trouble::Memory) => Err(ParseError::NoMemory),
    }
}

/// Why reading stops at the token of the index.
fn refusal(alloc: Global, tokens: &[Token], at: usize, end: Span) -> ParseError
    ensures { Names (map lexeme (take at tokens.now)) (map lexeme (drop at tokens.now)) end result }
{
    let span = place_at(tokens, at, end);
    match is_out(alloc, tokens, at) {
        Ok(true) => ParseError::OutOfProfile(span),
        Ok(false) => ParseError::Syntax(span),
        Err(_) => ParseError::NoMemory,
    }
}

/// The place of a token, or the end.
fn place_at(tokens: &[Token], at: usize, end: Span) -> Span
    ensures { result ≡ place_at (map lexeme (drop at tokens.now)) end }
{
    if at < tokens.len() {
        tokens[at].span
    } else {
        end
    }
}

/// Any list of tokens is spelled by a whole text or stops in it, and not both, with one tree or one place.
pub fn one_reading()
    ensures { (tokens : List Lexeme) → IsDetermined module_text tokens }
{}
