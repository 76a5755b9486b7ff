//! Line ends, `;`, and the words before a body. Section numbers are those of ISO/IEC 30170.
ghost use Rattle.std.specs.Prelude.{◌≡◌, Some};
ghost use Rattle.zw_def_syntax.specs.Compound as spec;
ghost use Rattle.zw_def_syntax.specs.Input.{is_separator};
ghost use Rattle.zw_lexer.specs.Token.{kind_seen};
ghost use Rattle.zw_expr.specs.Reads.{Reads};
ghost use Rattle.zw_compound.specs.Part as part;

use zw_ast::{MakeFault, Malformed};
use zw_expr::Cursor;
use zw_lexer::{Keyword, Punctuation, TokenKind};

fn is_separator(tokens: &Cursor<'_>, kind: &TokenKind) -> bool
    ensures { result ≡ is_separator (kind_seen tokens.now.names kind.now) }
{
    match kind {
        TokenKind::Newline => true,
        TokenKind::Sign(sign) => matches!(sign, Punctuation::Semicolon),
        _ => false,
    }
}

/// Whether a line end or `;` follows.
pub fn separator_next(tokens: &Cursor<'_>) -> bool
    ensures { result ≡ spec.separator_next tokens.now.input }
{
    match tokens.kind() {
        Some(kind) => is_separator(tokens, kind),
        None => false,
    }
}

/// Passes over line ends and `;`.
#[tactic(auto, using(zw_def_syntax::proofs::TurnLemmas::loop_ended, zw_def_syntax::proofs::TurnLemmas::loop_gone_on, zw_def_syntax::proofs::TurnLemmas::loop_done), unfolding(zw_def_syntax::specs::Compound::skip_separators))]
pub fn skip_separators(tokens: &mut Cursor<'_>)
    ensures skips { spec.skip_separators tokens.old.input ≡ Some (tt, tokens.new.input) }
    ensures names { tokens.new.names ≡ tokens.old.names }
{
    'turn: for _turn in 0..tokens.left() {
        if !separator_next(tokens) {
            return;
        }
        tokens.take_token();
    }
}

/// Passes over at least one line end or `;`.
#[tactic(auto, unfolding(zw_def_syntax::specs::Compound::separators))]
pub(crate) fn separators(tokens: &mut Cursor<'_>) -> Result<(), MakeFault>
    ensures reads { Reads (λ x. x) spec.separators tokens.old.input result tokens.new.input }
    ensures names { tokens.new.names ≡ tokens.old.names }
{
    if !separator_next(tokens) {
        return Err(MakeFault::Refused(Malformed));
    }
    tokens.take_token();
    skip_separators(tokens);
    Ok(())
}

/// Passes over `then`, where it is there.
fn optional_then(tokens: &mut Cursor<'_>)
    ensures taken { part.optional_then tokens.old.input ≡ Some (tt, tokens.new.input) }
    ensures names { tokens.new.names ≡ tokens.old.names }
{
    if tokens.keyword_next(Keyword::Then) {
        tokens.take_token();
    }
}

/// Passes over `then`, or line ends with it or without it.
#[tactic(auto, unfolding(zw_def_syntax::specs::Compound::then_word))]
#[inline(never)]
pub(crate) fn then_word(tokens: &mut Cursor<'_>) -> Result<(), MakeFault>
    ensures reads { Reads (λ x. x) spec.then_word tokens.old.input result tokens.new.input }
    ensures names { tokens.new.names ≡ tokens.old.names }
{
    if tokens.keyword_next(Keyword::Then) {
        tokens.take_token();
        return Ok(());
    }
    separators(tokens)?;
    optional_then(tokens);
    Ok(())
}

/// Passes over `do`, or line ends.
#[tactic(auto, unfolding(zw_def_syntax::specs::Compound::do_word))]
pub(crate) fn do_word(tokens: &mut Cursor<'_>) -> Result<(), MakeFault>
    ensures reads { Reads (λ x. x) spec.do_word tokens.old.input result tokens.new.input }
    ensures names { tokens.new.names ≡ tokens.old.names }
{
    if tokens.keyword_next(Keyword::Do) {
        tokens.take_token();
        return Ok(());
    }
    separators(tokens)
}
