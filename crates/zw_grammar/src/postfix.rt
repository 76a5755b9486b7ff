//! Calls, constants of others, and indices. Section numbers are those of ISO/IEC 30170.
ghost use Rattle.std.specs.Prelude.{◌≡◌, IfOk, codes};
ghost use Rattle.zw_def_syntax.specs.Expression as spec;
ghost use Rattle.zw_def_syntax.specs.Grammar.{within};
ghost use Rattle.zw_ast.specs.Gives.{Gives};
ghost use Rattle.zw_ast.specs.Grown.{grown_seen, all_seen};
ghost use Rattle.zw_ast.specs.Named.{IsNamed, AreNamed};
ghost use Rattle.zw_expr.specs.Nests.{Nests};
ghost use Rattle.zw_expr.specs.Reads.{Reads};
ghost use Rattle.zw_grammar.specs.Part as part;

use crate::arguments::{arguments, parens};
use crate::primary::primary;
use crate::sight::{parens_next, suffix_next};
use crate::take::take_integer;
use zw_ast::{Built, MakeFault, Maker};
use zw_expr::{Cursor, Grammar, Read, Within};
use zw_lexer::Punctuation;

/// Parentheses of a call, or no arguments.
pub(crate) fn optional_parens<
    't,
    F: Fn(Maker<'t>, &mut Cursor<'t>, usize, Within) -> Result<Read, MakeFault>,
>(grammar: &Grammar<'t, F>, tokens: &mut Cursor<'t>) -> Result<Vec<Built>, MakeFault>
    requires nests { Nests grammar.now.maker.names.now grammar.now.depth (F.pre grammar.now.inner)
        (F.post grammar.now.inner) }
    requires same { tokens.old.names ≡ grammar.now.maker.names.now }
    ensures reads { Reads (λ all. all_seen grammar.now.maker.names.now all.items)
        (part.optional_parens (within grammar.now.depth)) tokens.old.input result tokens.new.input }
    ensures same { tokens.new.names ≡ grammar.now.maker.names.now }
    ensures named { IfOk result (λ all. AreNamed grammar.now.maker.names.now all.items) }
{
    if parens_next(tokens) {
        parens(grammar, tokens)
    } else {
        Ok(Vec::new(grammar.maker.alloc))
    }
}

/// `.x` or `.x(a)` (11.3).
#[tactic(auto, unfolding(zw_def_syntax::specs::Expression::called))]
#[inline(never)]
pub(crate) fn called<
    't,
    F: Fn(Maker<'t>, &mut Cursor<'t>, usize, Within) -> Result<Read, MakeFault>,
>(grammar: &Grammar<'t, F>, tokens: &mut Cursor<'t>, receiver: Built) -> Result<Built, MakeFault>
    requires nests { Nests grammar.now.maker.names.now grammar.now.depth (F.pre grammar.now.inner)
        (F.post grammar.now.inner) }
    requires same { tokens.old.names ≡ grammar.now.maker.names.now }
    requires receiver { IsNamed grammar.now.maker.names.now receiver }
    ensures reads { Reads (grown_seen grammar.now.maker.names.now)
        (spec.called (within grammar.now.depth) (grown_seen grammar.now.maker.names.now receiver))
        tokens.old.input result tokens.new.input }
    ensures same { tokens.new.names ≡ grammar.now.maker.names.now }
    ensures named { IfOk result (IsNamed grammar.now.maker.names.now) }
{
    tokens.take_token();
    let name = tokens.take_word()?;
    let args = optional_parens(grammar, tokens)?;
    grammar.maker.call(receiver, name, args)
}

/// `::N` after a postfix (11.5.4.2).
#[tactic(auto, unfolding(zw_def_syntax::specs::Expression::scoped))]
#[inline(never)]
pub(crate) fn scoped<
    't,
    F: Fn(Maker<'t>, &mut Cursor<'t>, usize, Within) -> Result<Read, MakeFault>,
>(grammar: &Grammar<'t, F>, tokens: &mut Cursor<'t>, receiver: Built) -> Result<Built, MakeFault>
    requires nests { Nests grammar.now.maker.names.now grammar.now.depth (F.pre grammar.now.inner)
        (F.post grammar.now.inner) }
    requires same { tokens.old.names ≡ grammar.now.maker.names.now }
    requires receiver { IsNamed grammar.now.maker.names.now receiver }
    ensures reads { Reads (grown_seen grammar.now.maker.names.now)
        (spec.scoped (within grammar.now.depth) (grown_seen grammar.now.maker.names.now receiver))
        tokens.old.input result tokens.new.input }
    ensures same { tokens.new.names ≡ grammar.now.maker.names.now }
    ensures named { IfOk result (IsNamed grammar.now.maker.names.now) }
{
    tokens.take_token();
    let name = tokens.take_constant()?;
    grammar.maker.scoped(receiver, name)
}

// The call of the method that an index is.
fn index(maker: &Maker<'_>, receiver: Built, args: Vec<Built>) -> Result<Built, MakeFault>
    requires receiver { IsNamed maker.now.names.now receiver }
    requires args { AreNamed maker.now.names.now args.items }
    ensures told { Gives (grown_seen maker.now.names.now) (spec.call (codes "[]")
        (grown_seen maker.now.names.now receiver) (all_seen maker.now.names.now args.items)) result }
    ensures named { IfOk result (IsNamed maker.now.names.now) }
{
    let name = maker.operator("[]");
    maker.call(receiver, name, args)
}

/// `[a]`.
#[inline(never)]
pub(crate) fn index_arguments<
    't,
    F: Fn(Maker<'t>, &mut Cursor<'t>, usize, Within) -> Result<Read, MakeFault>,
>(grammar: &Grammar<'t, F>, tokens: &mut Cursor<'t>) -> Result<Vec<Built>, MakeFault>
    requires nests { Nests grammar.now.maker.names.now grammar.now.depth (F.pre grammar.now.inner)
        (F.post grammar.now.inner) }
    requires same { tokens.old.names ≡ grammar.now.maker.names.now }
    ensures reads { Reads (λ all. all_seen grammar.now.maker.names.now all.items)
        (part.index_arguments (within grammar.now.depth)) tokens.old.input result tokens.new.input }
    ensures same { tokens.new.names ≡ grammar.now.maker.names.now }
    ensures named { IfOk result (λ all. AreNamed grammar.now.maker.names.now all.items) }
{
    tokens.open_bracket()?;
    let args = arguments(grammar, tokens)?;
    tokens.close_sign(Punctuation::CloseBracket)?;
    Ok(args)
}

/// `[a]` after a postfix (11.3.3).
#[tactic(auto, using(crate::proofs::PartLemmas::index_by_arguments))]
#[inline(never)]
pub(crate) fn indexed<
    't,
    F: Fn(Maker<'t>, &mut Cursor<'t>, usize, Within) -> Result<Read, MakeFault>,
>(grammar: &Grammar<'t, F>, tokens: &mut Cursor<'t>, receiver: Built) -> Result<Built, MakeFault>
    requires nests { Nests grammar.now.maker.names.now grammar.now.depth (F.pre grammar.now.inner)
        (F.post grammar.now.inner) }
    requires same { tokens.old.names ≡ grammar.now.maker.names.now }
    requires receiver { IsNamed grammar.now.maker.names.now receiver }
    ensures reads { Reads (grown_seen grammar.now.maker.names.now)
        (spec.indexed (within grammar.now.depth) (grown_seen grammar.now.maker.names.now receiver)) tokens.old.input result tokens.new.input }
    ensures same { tokens.new.names ≡ grammar.now.maker.names.now }
    ensures named { IfOk result (IsNamed grammar.now.maker.names.now) }
{
    let args = index_arguments(grammar, tokens)?;
    index(&grammar.maker, receiver, args)
}

/// `::N` or `[a]` after a postfix.
pub(crate) fn scoped_or_indexed<
    't,
    F: Fn(Maker<'t>, &mut Cursor<'t>, usize, Within) -> Result<Read, MakeFault>,
>(grammar: &Grammar<'t, F>, tokens: &mut Cursor<'t>, receiver: Built) -> Result<Built, MakeFault>
    requires nests { Nests grammar.now.maker.names.now grammar.now.depth (F.pre grammar.now.inner)
        (F.post grammar.now.inner) }
    requires same { tokens.old.names ≡ grammar.now.maker.names.now }
    requires receiver { IsNamed grammar.now.maker.names.now receiver }
    ensures reads { Reads (grown_seen grammar.now.maker.names.now)
        (part.scoped_or_indexed (within grammar.now.depth) (grown_seen grammar.now.maker.names.now receiver)) tokens.old.input result tokens.new.input }
    ensures same { tokens.new.names ≡ grammar.now.maker.names.now }
    ensures named { IfOk result (IsNamed grammar.now.maker.names.now) }
{
    if tokens.sign_next(Punctuation::Scope) {
        scoped(grammar, tokens, receiver)
    } else {
        indexed(grammar, tokens, receiver)
    }
}

/// One part of a postfix.
pub(crate) fn suffix<
    't,
    F: Fn(Maker<'t>, &mut Cursor<'t>, usize, Within) -> Result<Read, MakeFault>,
>(grammar: &Grammar<'t, F>, tokens: &mut Cursor<'t>, receiver: Built) -> Result<Built, MakeFault>
    requires nests { Nests grammar.now.maker.names.now grammar.now.depth (F.pre grammar.now.inner)
        (F.post grammar.now.inner) }
    requires same { tokens.old.names ≡ grammar.now.maker.names.now }
    requires receiver { IsNamed grammar.now.maker.names.now receiver }
    ensures reads { Reads (grown_seen grammar.now.maker.names.now)
        (spec.suffix (within grammar.now.depth) (grown_seen grammar.now.maker.names.now receiver)) tokens.old.input result tokens.new.input }
    ensures same { tokens.new.names ≡ grammar.now.maker.names.now }
    ensures named { IfOk result (IsNamed grammar.now.maker.names.now) }
{
    if tokens.sign_next(Punctuation::Dot) {
        called(grammar, tokens, receiver)
    } else {
        scoped_or_indexed(grammar, tokens, receiver)
    }
}

/// What goes on with a postfix.
#[tactic(auto, using(zw_def_syntax::proofs::TurnLemmas::loop_ended, zw_def_syntax::proofs::TurnLemmas::loop_refused, zw_def_syntax::proofs::TurnLemmas::loop_gone_on, zw_def_syntax::proofs::TurnLemmas::loop_done), unfolding(zw_def_syntax::specs::Expression::suffixes))]
#[inline(never)]
pub(crate) fn suffixes<
    't,
    F: Fn(Maker<'t>, &mut Cursor<'t>, usize, Within) -> Result<Read, MakeFault>,
>(
    grammar: &Grammar<'t, F>,
    tokens: &mut Cursor<'t>,
    mut receiver: Built,
) -> Result<Built, MakeFault>
    requires nests { Nests grammar.now.maker.names.now grammar.now.depth (F.pre grammar.now.inner)
        (F.post grammar.now.inner) }
    requires same { tokens.old.names ≡ grammar.now.maker.names.now }
    requires receiver { IsNamed grammar.now.maker.names.now receiver }
    ensures reads { Reads (grown_seen grammar.now.maker.names.now)
        (spec.suffixes (within grammar.now.depth) (grown_seen grammar.now.maker.names.now receiver))
        tokens.old.input result tokens.new.input }
    ensures same { tokens.new.names ≡ grammar.now.maker.names.now }
    ensures named { IfOk result (IsNamed grammar.now.maker.names.now) }
{
    'turn: for _turn in 0..tokens.left() {
        if !suffix_next(tokens) {
            return Ok(receiver);
        }
        receiver = suffix(grammar, tokens, receiver)?;
    }
    Ok(receiver)
}

/// A primary, and what goes on with it.
#[tactic(auto, unfolding(zw_def_syntax::specs::Expression::postfix))]
#[inline(never)]
pub(crate) fn postfix<
    't,
    F: Fn(Maker<'t>, &mut Cursor<'t>, usize, Within) -> Result<Read, MakeFault>,
>(grammar: &Grammar<'t, F>, tokens: &mut Cursor<'t>) -> Result<Built, MakeFault>
    requires nests { Nests grammar.now.maker.names.now grammar.now.depth (F.pre grammar.now.inner)
        (F.post grammar.now.inner) }
    requires same { tokens.old.names ≡ grammar.now.maker.names.now }
    ensures reads { Reads (grown_seen grammar.now.maker.names.now) (spec.postfix (within grammar.now.depth))
        tokens.old.input result tokens.new.input }
    ensures same { tokens.new.names ≡ grammar.now.maker.names.now }
    ensures named { IfOk result (IsNamed grammar.now.maker.names.now) }
{
    let first = primary(grammar, tokens)?;
    suffixes(grammar, tokens, first)
}

/// A `-` directly before an integer, and what goes on with both.
#[tactic(auto, unfolding(zw_def_syntax::specs::Expression::negative))]
#[inline(never)]
pub(crate) fn negative<
    't,
    F: Fn(Maker<'t>, &mut Cursor<'t>, usize, Within) -> Result<Read, MakeFault>,
>(grammar: &Grammar<'t, F>, tokens: &mut Cursor<'t>) -> Result<Built, MakeFault>
    requires nests { Nests grammar.now.maker.names.now grammar.now.depth (F.pre grammar.now.inner)
        (F.post grammar.now.inner) }
    requires same { tokens.old.names ≡ grammar.now.maker.names.now }
    ensures reads { Reads (grown_seen grammar.now.maker.names.now)
        (spec.negative (within grammar.now.depth)) tokens.old.input result tokens.new.input }
    ensures same { tokens.new.names ≡ grammar.now.maker.names.now }
    ensures named { IfOk result (IsNamed grammar.now.maker.names.now) }
{
    tokens.take_token();
    let number = take_integer(tokens)?;
    let base = grammar.maker.integer(number.negated())?;
    suffixes(grammar, tokens, base)
}
