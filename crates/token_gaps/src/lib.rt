//! What stands between the tokens of a text.
#![tactic(auto)]

ghost use Rattle.std.specs.Prelude.{◌≡◌, ℕ, List, [], Ok};
ghost use Rattle.ir_lexer.specs.Lexeme.{Lexeme};
ghost use Rattle.ir_lexer.specs.Tokens.{tokens_of};
ghost use Rattle.token_gaps.specs.Gaps.{AreInGaps};

/// A text that has tokens is made of their texts, each at its place, and of blanks, comments and dropped lines.
pub fn token_gaps()
    ensures { (source : List ℕ) (tokens : List Lexeme) → tokens_of source ≡ Ok tokens → AreInGaps [] source tokens }
{}
