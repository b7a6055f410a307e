//! Tokens.

use ir_types::span::Span;

/// What a token is.
#[derive(Clone, Copy, Debug, PartialEq, Eq)]
pub enum TokenKind {
    /// `%` and a name.
    Local,
    /// `@` and a name.
    Global,
    /// A name and `:`.
    Label,
    /// Digits, which a minus sign may precede.
    Number,
    /// Any other run of name bytes.
    Word,
    /// `#` and name bytes.
    Hash,
    /// `!` and name bytes.
    Bang,
    /// One of `= , ( ) { } [ ] < > *`.
    Punct,
}

/// A token: the slice of the source at its span, with sigil, colon and quotes.
#[derive(Clone, Copy, Debug)]
pub struct Token<'a> {
    pub kind: TokenKind,
    pub text: &'a [u8],
    pub span: Span,
}
