//! Tokens.
use crate::keyword::Keyword;
use crate::magnitude::Magnitude;
use crate::punctuation::Punctuation;
use zw_names::Name;

/// What a token is.
#[derive(Debug, Drop)]
pub enum TokenKind {
    /// A line end that separates statements.
    Newline,
    Identifier(Name),
    Constant(Name),
    Integer(Magnitude),
    /// A variable `@x`, by its name without the `@`.
    InstanceVariable(Name),
    /// A variable `@@x`, by its name without the `@@`.
    ClassVariable(Name),
    Symbol(Name),
    /// A whole text, by what it stands for.
    Text(String),
    /// A text up to its first `#{`.
    TextBegin(String),
    /// What stands between the `}` of an interpolation and the next `#{`.
    TextMiddle(String),
    /// What stands after the `}` of the last interpolation.
    TextEnd(String),
    Keyword(Keyword),
    Sign(Punctuation),
}

/// A token, with its place.
#[derive(Debug, Drop)]
pub struct Token {
    pub kind: TokenKind,
    /// The line on which it begins, from 1 on.
    pub line: usize,
    /// How many bytes stand before it.
    pub start: usize,
    /// How many bytes stand before what follows it.
    pub end: usize,
    /// Whether a space or a tab stands directly before it.
    pub blank_before: bool,
    /// Whether a space or a tab stands directly after it.
    pub blank_after: bool,
}
