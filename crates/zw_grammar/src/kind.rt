//! What a token can be: the tests by which statements choose. Section numbers are those of ISO/IEC 30170.
ghost use Rattle.std.specs.Prelude.{◌≡◌, ◌≤◌, codes, length};
ghost use Rattle.std.specs.Str.{bytes_eq};
ghost use Rattle.zw_def_syntax.specs.Expression.{begins_argument};
ghost use Rattle.zw_def_syntax.specs.Grammar as spec;
ghost use Rattle.zw_def_syntax.specs.Input.{is_constant, is_variable_name};
ghost use Rattle.zw_def_syntax.specs.Lexed.{is_among};
ghost use Rattle.zw_def_syntax.specs.Token.{sign as sign_kind};
ghost use Rattle.zw_lexer.specs.Keyword.{keyword_text};
ghost use Rattle.zw_lexer.specs.Punctuation.{sign_text};
ghost use Rattle.zw_lexer.specs.Token.{kind_seen};
ghost use Rattle.zw_expr.specs.Named.{kind_bound};

use zw_expr::Cursor;
use zw_lexer::{Keyword, Punctuation, TokenKind};

/// Whether a token can be assigned to (11.4.2).
pub(crate) fn is_target(tokens: &Cursor<'_>, kind: &TokenKind) -> bool
    requires { kind_bound kind.now ≤ length tokens.now.names }
    ensures { result ≡ spec.is_target (kind_seen tokens.now.names kind.now) }
{
    match kind {
        TokenKind::Identifier(name) => tokens.is_plain(*name),
        TokenKind::InstanceVariable(_) | TokenKind::ClassVariable(_) | TokenKind::Constant(_) =>
            true,
        _ => false,
    }
}

// A sign that updates a class variable (11.4.2.3).
fn is_calculation(sign: Punctuation) -> bool
    ensures { result ≡ is_among (codes "+= -= *= /= %=") (sign_text sign) }
{
    matches!(
        sign,
        Punctuation::PlusAssign
            | Punctuation::MinusAssign
            | Punctuation::TimesAssign
            | Punctuation::DivideAssign
            | Punctuation::RemainderAssign
    )
}

// A sign that updates a variable (11.4.2.3).
fn is_update(sign: Punctuation) -> bool
    ensures { result ≡ is_among (codes "+= -= *= /= %= ||= &&=") (sign_text sign) }
{
    is_calculation(sign) || matches!(sign, Punctuation::OrAssign | Punctuation::AndAssign)
}

/// Whether a token is updated by a sign after it.
pub(crate) fn is_updated(tokens: &Cursor<'_>, kind: &TokenKind, sign: Punctuation) -> bool
    requires { kind_bound kind.now ≤ length tokens.now.names }
    ensures { result ≡ spec.is_update (kind_seen tokens.now.names kind.now) (sign_kind (sign_text sign)) }
{
    match kind {
        TokenKind::Identifier(name) => tokens.is_plain(*name) && is_update(sign),
        TokenKind::InstanceVariable(_) => is_update(sign),
        TokenKind::ClassVariable(_) => is_calculation(sign),
        _ => false,
    }
}

// A word before which `return` has no value.
fn is_return_end(word: Keyword) -> bool
    ensures { result ≡ is_among (codes "end if unless while until and or") (keyword_text word) }
{
    matches!(
        word,
        Keyword::End
            | Keyword::If
            | Keyword::Unless
            | Keyword::While
            | Keyword::Until
            | Keyword::And
            | Keyword::Or
    )
}

/// Whether `return` has no value before a token (11.5.2.4).
pub(crate) fn ends_return(tokens: &Cursor<'_>, kind: &TokenKind) -> bool
    ensures { result ≡ spec.ends_return (kind_seen tokens.now.names kind.now) }
{
    match kind {
        TokenKind::Newline => true,
        TokenKind::Sign(sign) => matches!(
            sign,
            Punctuation::Semicolon | Punctuation::CloseParenthesis
        ),
        TokenKind::Keyword(word) => is_return_end(*word),
        _ => false,
    }
}

// A word before which a program ends.
fn is_program_end(word: Keyword) -> bool
    ensures { result ≡ is_among (codes "end else elsif rescue ensure") (keyword_text word) }
{
    matches!(
        word,
        Keyword::End | Keyword::Else | Keyword::Elsif | Keyword::Rescue | Keyword::Ensure
    )
}

/// Whether a program ends before a token.
pub(crate) fn ends_program(tokens: &Cursor<'_>, kind: &TokenKind) -> bool
    ensures { result ≡ spec.ends_program (kind_seen tokens.now.names kind.now) }
{
    match kind {
        TokenKind::TextMiddle(_) | TokenKind::TextEnd(_) => true,
        TokenKind::Sign(sign) => matches!(sign, Punctuation::CloseParenthesis),
        TokenKind::Keyword(word) => is_program_end(*word),
        _ => false,
    }
}

// A word with which an argument of a command begins.
fn is_argument_word(word: Keyword) -> bool
    ensures { result ≡ is_among (codes "nil true false self super def") (keyword_text word) }
{
    matches!(
        word,
        Keyword::Nil
            | Keyword::True
            | Keyword::False
            | Keyword::SelfWord
            | Keyword::Super
            | Keyword::Def
    )
}

// A sign with which an argument of a command begins, whatever follows.
fn is_argument_sign(sign: Punctuation) -> bool
    ensures { result ≡ is_among (codes "[ ! ( ::") (sign_text sign) }
{
    matches!(
        sign,
        Punctuation::OpenBracket
            | Punctuation::Bang
            | Punctuation::OpenParenthesis
            | Punctuation::Scope
    )
}

fn is_minus(sign: Punctuation) -> bool
    ensures { result ≡ bytes_eq (sign_text sign) (codes "-") }
{
    matches!(sign, Punctuation::Minus)
}

/// Whether an argument of a command begins with a token, where a blank follows it or not (11.3).
pub(crate) fn begins_argument(tokens: &Cursor<'_>, kind: &TokenKind, blank: bool) -> bool
    ensures { result ≡ begins_argument (kind_seen tokens.now.names kind.now) blank }
{
    match kind {
        TokenKind::Integer(_)
        | TokenKind::Text(_)
        | TokenKind::TextBegin(_)
        | TokenKind::Symbol(_)
        | TokenKind::Identifier(_)
        | TokenKind::Constant(_)
        | TokenKind::InstanceVariable(_)
        | TokenKind::ClassVariable(_) => true,
        TokenKind::Keyword(word) => is_argument_word(*word),
        TokenKind::Sign(sign) => is_argument_sign(*sign) || (is_minus(*sign) && !blank),
        _ => false,
    }
}

/// Whether a token is a name that is no known variable.
pub(crate) fn is_unknown_name(tokens: &Cursor<'_>, kind: &TokenKind) -> bool
    requires { kind_bound kind.now ≤ length tokens.now.names }
    ensures { result ≡ spec.is_unknown_name tokens.now.input (kind_seen tokens.now.names kind.now) }
{
    match kind {
        TokenKind::Identifier(name) => !tokens.is_known(*name),
        _ => false,
    }
}

/// Whether a token is a name of a method.
pub(crate) fn is_word(tokens: &Cursor<'_>, kind: &TokenKind) -> bool
    ensures { result ≡ spec.is_word (kind_seen tokens.now.names kind.now) }
{
    matches!(kind, TokenKind::Identifier(_) | TokenKind::Constant(_))
}

/// Whether a token is a constant.
pub(crate) fn is_constant(tokens: &Cursor<'_>, kind: &TokenKind) -> bool
    ensures { result ≡ is_constant (kind_seen tokens.now.names kind.now) }
{
    matches!(kind, TokenKind::Constant(_))
}

/// Whether a token is a name that a variable can have.
pub(crate) fn is_variable_name(tokens: &Cursor<'_>, kind: &TokenKind) -> bool
    requires { kind_bound kind.now ≤ length tokens.now.names }
    ensures { result ≡ is_variable_name (kind_seen tokens.now.names kind.now) }
{
    match kind {
        TokenKind::Identifier(name) => tokens.is_plain(*name),
        _ => false,
    }
}
