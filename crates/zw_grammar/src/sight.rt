//! What stands at the cursor: the tests by which rules choose.
ghost use Rattle.std.specs.Prelude.{◌≡◌, false};
ghost use Rattle.std.specs.Option.{option_map_or};
ghost use Rattle.zw_def_syntax.specs.Compound.{adjoins};
ghost use Rattle.zw_def_syntax.specs.Expression as spec;
ghost use Rattle.zw_def_syntax.specs.Input.{is_sign_of, kind_is, token_at};
ghost use Rattle.zw_def_syntax.specs.Levels.{operand_signs};

use zw_expr::{Cursor, Sign};
use zw_lexer::{Keyword, Punctuation, Token, TokenKind};

// Whether no blank stands before the next token.
fn is_unspaced(tokens: &Cursor<'_>) -> bool
    ensures { result ≡ option_map_or spec.unspaced (token_at 0 tokens.now.input) false }
{
    match tokens.at(0) {
        Some(token) => !token.blank_before,
        None => false,
    }
}

/// Whether the parentheses of a call follow.
pub(crate) fn parens_next(tokens: &Cursor<'_>) -> bool
    ensures { result ≡ spec.parens_next tokens.now.input }
{
    tokens.sign_next(Punctuation::OpenParenthesis) && is_unspaced(tokens)
}

/// Whether an index follows.
pub(crate) fn index_next(tokens: &Cursor<'_>) -> bool
    ensures { result ≡ spec.index_next tokens.now.input }
{
    tokens.sign_next(Punctuation::OpenBracket) && is_unspaced(tokens)
}

/// Whether a postfix goes on.
pub(crate) fn suffix_next(tokens: &Cursor<'_>) -> bool
    ensures { result ≡ spec.suffix_next tokens.now.input }
{
    tokens.sign_next(Punctuation::Dot) || tokens.sign_next(Punctuation::Scope) || index_next(tokens)
}

/// Whether a `,` with an item after it follows.
pub(crate) fn item_next(tokens: &Cursor<'_>) -> bool
    ensures { result ≡ spec.item_next tokens.now.input }
{
    tokens.sign_next(Punctuation::Comma) && !tokens.sign_at(1, Punctuation::CloseBracket)
}

fn integer_after(tokens: &Cursor<'_>) -> bool
    ensures { result ≡ kind_is spec.is_integer 1 tokens.now.input }
{
    match tokens.at(1) {
        Some(token) => matches!(token.kind, TokenKind::Integer(_)),
        None => false,
    }
}

// Whether nothing stands between the next two tokens.
fn next_two_adjoin(tokens: &Cursor<'_>) -> bool
    ensures { result ≡ adjoins (token_at 0 tokens.now.input) (token_at 1 tokens.now.input) }
{
    match (tokens.at(0), tokens.at(1)) {
        (Some(first), Some(second)) => first.end == second.start,
        _ => false,
    }
}

/// Whether a `-` directly before an integer follows.
pub(crate) fn negative_next(tokens: &Cursor<'_>) -> bool
    ensures { result ≡ spec.negative_next tokens.now.input }
{
    tokens.sign_next(Punctuation::Minus) && integer_after(tokens) && next_two_adjoin(tokens)
}

/// Whether the program after an interpolation's `}` follows.
pub(crate) fn middle_next(tokens: &Cursor<'_>) -> bool
    ensures { result ≡ kind_is spec.is_middle 0 tokens.now.input }
{
    match tokens.kind() {
        Some(kind) => matches!(kind, TokenKind::TextMiddle(_)),
        None => false,
    }
}

/// Whether a sign between operands follows.
pub(crate) fn operand_next(tokens: &Cursor<'_>) -> bool
    ensures { result ≡ kind_is (is_sign_of operand_signs) 0 tokens.now.input }
{
    match tokens.kind() {
        Some(TokenKind::Sign(sign)) => Sign::of(*sign).is_some(),
        _ => false,
    }
}
