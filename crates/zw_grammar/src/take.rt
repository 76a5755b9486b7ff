//! Tokens that are passed over for what they hold.
ghost use Rattle.std.specs.Prelude.{◌≡◌, string_bytes, IfOk};
ghost use Rattle.zw_def_syntax.specs.Expression as spec;
ghost use Rattle.zw_def_syntax.specs.Grammar.{keyword_of};
ghost use Rattle.zw_def_syntax.specs.Input.{next, take_name};
ghost use Rattle.zw_lexer.specs.Keyword.{keyword_text};
ghost use Rattle.zw_expr.specs.Reads.{Reads};
ghost use Rattle.zw_expr.specs.Sign.{text_of_sign};

use std::alloc::Global;
use zw_ast::{Built, MakeFault, Malformed};
use zw_expr::{Cursor, Sign};
use zw_lexer::{Keyword, Magnitude, TokenKind};

/// A node for which the next token alone stands.
pub(crate) fn taken(
    tokens: &mut Cursor<'_>,
    node: Result<Built, MakeFault>,
) -> Result<Built, MakeFault>
    ensures node { result ≡ node }
    ensures taken { tokens.new.input ≡ next tokens.old.input }
    ensures names { tokens.new.names ≡ tokens.old.names }
{
    tokens.take_token();
    node
}

/// Passes over an integer.
#[tactic(auto, unfolding(zw_def_syntax::specs::Expression::take_integer))]
pub(crate) fn take_integer(tokens: &mut Cursor<'_>) -> Result<Magnitude, MakeFault>
    ensures reads { Reads (λ n. n) spec.take_integer tokens.old.input result tokens.new.input }
    ensures names { tokens.new.names ≡ tokens.old.names }
{
    match tokens.kind() {
        Some(TokenKind::Integer(number)) => {
            tokens.take_token();
            Ok(*number)
        }
        _ => Err(MakeFault::Refused(Malformed)),
    }
}

/// Passes over a text between two interpolations.
pub(crate) fn take_middle(alloc: Global, tokens: &mut Cursor<'_>) -> Result<String, MakeFault>
    ensures reads { Reads (λ t. string_bytes t) (take_name spec.middle_of) tokens.old.input result tokens.new.input }
    ensures names { tokens.new.names ≡ tokens.old.names }
{
    match tokens.kind() {
        Some(TokenKind::TextMiddle(text)) => {
            let text = String::from_str(alloc, text.as_str())?;
            tokens.take_token();
            Ok(text)
        }
        _ => Err(MakeFault::Refused(Malformed)),
    }
}

/// Passes over the end of a text, which closes its last interpolation.
#[tactic(auto, unfolding(zw_def_syntax::specs::Expression::close_text))]
pub(crate) fn close_text(alloc: Global, tokens: &mut Cursor<'_>) -> Result<String, MakeFault>
    ensures reads { Reads (λ t. string_bytes t) spec.close_text tokens.old.input result tokens.new.input }
    ensures names { tokens.new.names ≡ tokens.old.names }
{
    match tokens.kind() {
        Some(TokenKind::TextEnd(text)) => {
            let text = String::from_str(alloc, text.as_str())?;
            tokens.close_bracket();
            Ok(text)
        }
        _ => Err(MakeFault::Refused(Malformed)),
    }
}

/// Passes over a keyword, whichever it is.
pub(crate) fn take_any_keyword(tokens: &mut Cursor<'_>) -> Result<Keyword, MakeFault>
    ensures reads { Reads (λ k. keyword_text k) (take_name keyword_of) tokens.old.input result tokens.new.input }
    ensures names { tokens.new.names ≡ tokens.old.names }
{
    match tokens.kind() {
        Some(TokenKind::Keyword(word)) => {
            tokens.take_token();
            Ok(*word)
        }
        _ => Err(MakeFault::Refused(Malformed)),
    }
}

/// Passes over a sign between operands.
pub(crate) fn take_operand_sign(tokens: &mut Cursor<'_>) -> Result<Sign, MakeFault>
    ensures reads { Reads (λ s. text_of_sign s) (take_name spec.between_of) tokens.old.input result tokens.new.input }
    ensures names { tokens.new.names ≡ tokens.old.names }
{
    let sign = match tokens.kind() {
        Some(TokenKind::Sign(sign)) => Sign::of(*sign),
        _ => None,
    };
    match sign {
        Some(sign) => {
            tokens.take_token();
            Ok(sign)
        }
        None => Err(MakeFault::Refused(Malformed)),
    }
}
