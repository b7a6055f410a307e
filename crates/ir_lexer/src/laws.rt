//! Laws of texts of tokens. Each function does nothing: its contract is the law.

ghost use Rattle.ir_lexer.specs.Lexeme.{Lexeme};
ghost use Rattle.ir_lexer.specs.Texts.{Inked, IsParted, LexesBack};
ghost use Rattle.ir_lexer.specs.Tokens.{tokens_of, IsOrderedFrom};
ghost use Rattle.std.specs.Prelude.{◌≡◌, ℕ, List, Ok};

/// A text of tokens that are kept apart has just these tokens.
pub fn lexes_back()
    ensures { (script : List Inked) → IsParted script → LexesBack script }
{}

/// The tokens of a text begin one behind the other.
pub fn tokens_in_order()
    ensures { (source : List ℕ) (tokens : List Lexeme) → tokens_of source ≡ Ok tokens → IsOrderedFrom 0 tokens }
{}
