//! What is expected at a stop is what is tried there.
#![tactic(auto)]

ghost use Rattle.std.specs.Prelude.{List, ◌++◌};
ghost use Rattle.grammar.specs.Grammar.{StopsAt};
ghost use Rattle.ir_lexer.specs.Lexeme.{Lexeme};
ghost use Rattle.ir_parser.specs.Module.{module_text};
ghost use Rattle.expected_phrases.specs.Expected.{IsExpectedAsTried};

/// At a stop of a whole text a phrase is expected, as a probe tells it, exactly where it is tried.
pub fn expected_phrases()
    ensures { (front stop : List Lexeme) → StopsAt module_text (front ++ stop) stop → IsExpectedAsTried front stop }
{}
