//! What the line of a refused text says.
ghost use Rattle.std.specs.Prelude.{◌≡◌, ◌<◌, ◌++◌, codes, get_or};
ghost use Rattle.call_lines.specs.Refused.{place_of, rule_text, advice_text, excerpt_at, spaced, hex_text};

use ir_reader::Refusal;
use ir_types::rules::Rule;
use ir_types::span::Span;

/// How many bytes of a token a line has at most.
const EXCERPT: usize = 40;

/// The place of a refusal.
pub fn place_of(refusal: Refusal) -> Span
    ensures { result ≡ place_of refusal }
{
    match refusal {
        Refusal::BadByte(span, _) => span,
        Refusal::Syntax(span) => span,
        Refusal::OutOfProfile(span) => span,
        Refusal::Broken(problem) => problem.span,
    }
}

/// The text's bytes at a place, at most 40 of them.
pub fn excerpt_at<'a>(source: &'a [u8], span: Span) -> &'a [u8]
    ensures { result.now ≡ excerpt_at source.now span }
{
    let end = (span.end as usize).min(source.len());
    let start = (span.start as usize).min(end);
    let token = &source[start..end];
    &token[..token.len().min(EXCERPT)]
}

/// The code and the name of a rule.
pub fn rule_text<'a>(rule: Rule) -> &'a [u8]
    ensures { result.now ≡ rule_text rule }
{
    match rule {
        Rule::Undefined => b"E5 Undefined",
        Rule::Duplicate => b"E6 Duplicate",
        Rule::BadNumber => b"E7 BadNumber",
        Rule::BadType => b"E8 BadType",
        Rule::Escapes => b"E9 Escapes",
        Rule::CrossBlock => b"E10 CrossBlock",
        Rule::EntryHasPredecessor => b"E11 EntryHasPredecessor",
        Rule::LateAlloca => b"E12 LateAlloca",
        Rule::UnknownExternal => b"E13 UnknownExternal",
        Rule::ConstantRange => b"E14 ConstantRange",
        Rule::Limit => b"E15 Limit",
        Rule::Phi => b"E16 Phi",
    }
}

/// What to do about a broken rule, where a pass of LLVM helps.
pub fn advice_text<'a>(rule: Rule) -> &'a [u8]
    ensures { result.now ≡ advice_text rule }
{
    match rule {
        Rule::CrossBlock | Rule::Phi => b" (demote registers first)",
        _ => b"",
    }
}

/// The space before an excerpt; none before an empty one.
pub fn space_before<'a>(excerpt: &[u8]) -> &'a [u8]
    ensures { spaced excerpt.now ≡ result.now ++ excerpt.now }
{
    if excerpt.is_empty() { b"" } else { b" " }
}

fn hex_digit(digit: u8) -> u8
    requires { digit < 16 }
    ensures { result ≡ get_or (codes "0123456789abcdef") digit 0 }
{
    b"0123456789abcdef"[digit as usize]
}

/// A byte by two lower-case hexadecimal digits.
pub fn hex_text(byte: u8) -> [u8; 2]
    ensures { result ≡ hex_text byte }
{
    [hex_digit(byte / 16), hex_digit(byte % 16)]
}
