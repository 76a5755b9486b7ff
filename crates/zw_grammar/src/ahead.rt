//! What stands at the cursor: the tests by which statements choose. Section numbers are those of ISO/IEC 30170.
ghost use Rattle.std.specs.Prelude.{◌≡◌, ◌≤◌, length};
ghost use Rattle.zw_def_syntax.specs.Compound.{Reader};
ghost use Rattle.zw_def_syntax.specs.Expression as e;
ghost use Rattle.zw_def_syntax.specs.Grammar as spec;
ghost use Rattle.zw_def_syntax.specs.Input as i;
ghost use Rattle.zw_def_syntax.specs.Input.{kind_is};
ghost use Rattle.zw_lexer.specs.Token.{kind_seen, token_seen};
ghost use Rattle.zw_expr.specs.Named.{kind_bound};

use crate::kind as of;
use crate::sight::suffix_next;
use zw_expr::Cursor;
use zw_lexer::{Keyword, Punctuation, Token, TokenKind};

fn target_next(tokens: &Cursor<'_>) -> bool
    ensures { result ≡ kind_is spec.is_target 0 tokens.now.input }
{
    match tokens.kind() {
        Some(kind) => of::is_target(tokens, kind),
        None => false,
    }
}

/// Whether a target of one token, and `=`, follow (11.4.2.2).
pub(crate) fn assignment_next(tokens: &Cursor<'_>) -> bool
    ensures { result ≡ spec.assignment_next tokens.now.input }
{
    target_next(tokens) && tokens.sign_at(1, Punctuation::Assign)
}

fn is_updated_by(tokens: &Cursor<'_>, target: &TokenKind, sign: &TokenKind) -> bool
    requires { kind_bound target.now ≤ length tokens.now.names }
    ensures { result ≡ spec.is_update (kind_seen tokens.now.names target.now) (kind_seen tokens.now.names sign.now) }
{
    match sign {
        TokenKind::Sign(sign) => of::is_updated(tokens, target, *sign),
        _ => false,
    }
}

/// Whether a variable, and a sign that updates it, follow (11.4.2.3).
pub(crate) fn update_next(tokens: &Cursor<'_>) -> bool
    ensures { result ≡ spec.update_next tokens.now.input }
{
    match (tokens.at(0), tokens.at(1)) {
        (Some(target), Some(sign)) => is_updated_by(tokens, &target.kind, &sign.kind),
        _ => false,
    }
}

/// Whether `return` has no value here (11.5.2.4).
pub(crate) fn return_ends(tokens: &Cursor<'_>) -> bool
    ensures { result ≡ spec.return_ends tokens.now.input }
{
    match tokens.kind() {
        Some(kind) => of::ends_return(tokens, kind),
        None => true,
    }
}

fn is_argument_start(tokens: &Cursor<'_>, token: &Token) -> bool
    ensures { result ≡ e.is_argument_start (token_seen tokens.now.names token.now) }
{
    token.blank_before && of::begins_argument(tokens, &token.kind, token.blank_after)
}

// Whether an argument of a command begins at a place (11.3).
fn argument_at(tokens: &Cursor<'_>, place: usize) -> bool
    ensures { result ≡ e.argument_at place tokens.now.input }
{
    match tokens.at(place) {
        Some(token) => is_argument_start(tokens, token),
        None => false,
    }
}

fn unknown_name_next(tokens: &Cursor<'_>) -> bool
    ensures { result ≡ kind_is (spec.is_unknown_name tokens.now.input) 0 tokens.now.input }
{
    match tokens.kind() {
        Some(kind) => of::is_unknown_name(tokens, kind),
        None => false,
    }
}

/// Whether a call without parentheses follows (11.3).
pub(crate) fn command_next(tokens: &Cursor<'_>) -> bool
    ensures { result ≡ spec.command_next tokens.now.input }
{
    unknown_name_next(tokens) && argument_at(tokens, 1)
}

/// Whether `super` with arguments and no parentheses follows (11.3.4).
pub(crate) fn super_command_next(tokens: &Cursor<'_>) -> bool
    ensures { result ≡ spec.super_command_next tokens.now.input }
{
    tokens.keyword_next(Keyword::Super) && argument_at(tokens, 1)
}

fn constant_after(tokens: &Cursor<'_>) -> bool
    ensures { result ≡ kind_is i.is_constant 1 tokens.now.input }
{
    match tokens.at(1) {
        Some(token) => of::is_constant(tokens, &token.kind),
        None => false,
    }
}

fn variable_name_after(tokens: &Cursor<'_>) -> bool
    ensures { result ≡ kind_is i.is_variable_name 1 tokens.now.input }
{
    match tokens.at(1) {
        Some(token) => of::is_variable_name(tokens, &token.kind),
        None => false,
    }
}

fn word_after(tokens: &Cursor<'_>) -> bool
    ensures { result ≡ kind_is spec.is_word 1 tokens.now.input }
{
    match tokens.at(1) {
        Some(token) => of::is_word(tokens, &token.kind),
        None => false,
    }
}

/// Whether `::N =` follows a postfix (11.4.2.2).
pub(crate) fn scoped_target_next(tokens: &Cursor<'_>) -> bool
    ensures { result ≡ spec.scoped_target_next tokens.now.input }
{
    tokens.sign_next(Punctuation::Scope)
        && constant_after(tokens)
        && tokens.sign_at(2, Punctuation::Assign)
}

/// Whether `.x =` follows a postfix (11.4.2.2).
pub(crate) fn attribute_next(tokens: &Cursor<'_>) -> bool
    ensures { result ≡ spec.attribute_next tokens.now.input }
{
    tokens.sign_next(Punctuation::Dot)
        && variable_name_after(tokens)
        && tokens.sign_at(2, Punctuation::Assign)
}

/// Whether `.x` and an argument follow a postfix (11.3).
pub(crate) fn call_command_next(tokens: &Cursor<'_>) -> bool
    ensures { result ≡ spec.call_command_next tokens.now.input }
{
    tokens.sign_next(Punctuation::Dot) && word_after(tokens) && argument_at(tokens, 2)
}

/// Whether a postfix goes on, and is no target and no command yet.
pub(crate) fn plain_suffix_next(tokens: &Cursor<'_>) -> bool
    ensures { result ≡ spec.plain_suffix_next tokens.now.input }
{
    suffix_next(tokens)
        && !scoped_target_next(tokens)
        && !attribute_next(tokens)
        && !call_command_next(tokens)
}

/// Whether `!` or `-` follows.
pub(crate) fn operator_next(tokens: &Cursor<'_>) -> bool
    ensures { (inner : Reader) → result ≡ spec.operator_next inner tokens.now.input }
{
    tokens.sign_next(Punctuation::Bang) || tokens.sign_next(Punctuation::Minus)
}

/// Whether a program ends here.
pub(crate) fn program_ends(tokens: &Cursor<'_>) -> bool
    ensures { result ≡ spec.program_ends tokens.now.input }
{
    match tokens.kind() {
        Some(kind) => of::ends_program(tokens, kind),
        None => true,
    }
}

/// Whether `and` or `or` follows (11.2.3 and 11.2.4).
pub(crate) fn logic_next(tokens: &Cursor<'_>) -> bool
    ensures { result ≡ kind_is (i.is_keyword_of "and or") 0 tokens.now.input }
{
    tokens.keyword_next(Keyword::And) || tokens.keyword_next(Keyword::Or)
}

/// Whether `while` or `until` follows.
pub(crate) fn loop_next(tokens: &Cursor<'_>) -> bool
    ensures { result ≡ kind_is (i.is_keyword_of "while until") 0 tokens.now.input }
{
    tokens.keyword_next(Keyword::While) || tokens.keyword_next(Keyword::Until)
}

/// Whether a modifier follows (12.3 to 12.6).
pub(crate) fn modifier_next(tokens: &Cursor<'_>) -> bool
    ensures { result ≡ kind_is (i.is_keyword_of "if unless while until") 0 tokens.now.input }
{
    tokens.keyword_next(Keyword::If)
        || tokens.keyword_next(Keyword::Unless)
        || tokens.keyword_next(Keyword::While)
        || tokens.keyword_next(Keyword::Until)
}
