//! Operators. Section numbers are those of ISO/IEC 30170.
ghost use Rattle.std.specs.Prelude.{◌≡◌, ◌≤◌, IfOk, [], codes, length};
ghost use Rattle.zw_def_syntax.specs.Expression as spec;
ghost use Rattle.zw_def_syntax.specs.Levels.{operand_signs};
ghost use Rattle.zw_def_syntax.specs.Grammar.{within};
ghost use Rattle.zw_def_syntax.specs.Input.{is_sign_of, kind_is, repeated};
ghost use Rattle.zw_ast.specs.Gives.{Gives};
ghost use Rattle.zw_ast.specs.Grown.{grown_seen};
ghost use Rattle.zw_ast.specs.Named.{AreNamed, IsNamed, greatest};
ghost use Rattle.zw_expr.specs.Nests.{Nests};
ghost use Rattle.zw_expr.specs.Reads.{Reads};
ghost use Rattle.zw_expr.specs.Operand.{AreNamedOperands, operands_seen};
ghost use Rattle.zw_grammar.specs.Bodies.{bodies_seen};
ghost use Rattle.zw_grammar.specs.Part as part;

use crate::arguments::first_argument;
use crate::postfix::{negative, postfix};
use crate::sight::{negative_next, operand_next};
use crate::take::take_operand_sign;
use std::collections::VecDeque;
use zw_ast::{Built, MakeFault, Maker, Order};
use zw_expr::{Cursor, Form, Grammar, Operand, Read, Within, fold};
use zw_lexer::Punctuation;

/// `!a` (11.2.5).
#[inline(never)]
pub(crate) fn inverted<
    't,
    F: Fn(Maker<'t>, &mut Cursor<'t>, usize, Within) -> Result<Read, MakeFault>,
>(grammar: &Grammar<'t, F>, tokens: &mut Cursor<'t>) -> Result<Built, MakeFault>
    requires nests { Nests grammar.now.maker.names.now grammar.now.depth (F.pre grammar.now.inner)
        (F.post grammar.now.inner) }
    requires same { tokens.old.names ≡ grammar.now.maker.names.now }
    ensures reads { Reads (grown_seen grammar.now.maker.names.now)
        (part.inverted (within grammar.now.depth)) tokens.old.input result tokens.new.input }
    ensures same { tokens.new.names ≡ grammar.now.maker.names.now }
    ensures named { IfOk result (IsNamed grammar.now.maker.names.now) }
{
    tokens.take_token();
    let value = grammar.tree(tokens, Form::Unary)?;
    grammar.maker.negation(value)
}

// The call of the method that a minus is.
fn negation(maker: &Maker<'_>, value: Built) -> Result<Built, MakeFault>
    requires value { IsNamed maker.now.names.now value }
    ensures told { Gives (grown_seen maker.now.names.now)
        (spec.call (codes "-@") (grown_seen maker.now.names.now value) []) result }
    ensures named { IfOk result (IsNamed maker.now.names.now) }
{
    let name = maker.operator("-@");
    maker.call(value, name, Vec::new(maker.alloc))
}

/// `-a` (11.4.3).
#[inline(never)]
pub(crate) fn minus<
    't,
    F: Fn(Maker<'t>, &mut Cursor<'t>, usize, Within) -> Result<Read, MakeFault>,
>(grammar: &Grammar<'t, F>, tokens: &mut Cursor<'t>) -> Result<Built, MakeFault>
    requires nests { Nests grammar.now.maker.names.now grammar.now.depth (F.pre grammar.now.inner)
        (F.post grammar.now.inner) }
    requires same { tokens.old.names ≡ grammar.now.maker.names.now }
    ensures reads { Reads (grown_seen grammar.now.maker.names.now) (part.minus (within grammar.now.depth))
        tokens.old.input result tokens.new.input }
    ensures same { tokens.new.names ≡ grammar.now.maker.names.now }
    ensures named { IfOk result (IsNamed grammar.now.maker.names.now) }
{
    tokens.take_token();
    let value = grammar.tree(tokens, Form::Unary)?;
    negation(&grammar.maker, value)
}

/// `-` and an operand, or a postfix.
pub(crate) fn minus_or_postfix<
    't,
    F: Fn(Maker<'t>, &mut Cursor<'t>, usize, Within) -> Result<Read, MakeFault>,
>(grammar: &Grammar<'t, F>, tokens: &mut Cursor<'t>) -> Result<Built, MakeFault>
    requires nests { Nests grammar.now.maker.names.now grammar.now.depth (F.pre grammar.now.inner)
        (F.post grammar.now.inner) }
    requires same { tokens.old.names ≡ grammar.now.maker.names.now }
    ensures reads { Reads (grown_seen grammar.now.maker.names.now)
        (part.minus_or_postfix (within grammar.now.depth)) tokens.old.input result tokens.new.input }
    ensures same { tokens.new.names ≡ grammar.now.maker.names.now }
    ensures named { IfOk result (IsNamed grammar.now.maker.names.now) }
{
    if tokens.sign_next(Punctuation::Minus) {
        minus(grammar, tokens)
    } else {
        postfix(grammar, tokens)
    }
}

/// What a sign may stand before: a negative integer comes first.
pub(crate) fn signed<
    't,
    F: Fn(Maker<'t>, &mut Cursor<'t>, usize, Within) -> Result<Read, MakeFault>,
>(grammar: &Grammar<'t, F>, tokens: &mut Cursor<'t>) -> Result<Built, MakeFault>
    requires nests { Nests grammar.now.maker.names.now grammar.now.depth (F.pre grammar.now.inner)
        (F.post grammar.now.inner) }
    requires same { tokens.old.names ≡ grammar.now.maker.names.now }
    ensures reads { Reads (grown_seen grammar.now.maker.names.now)
        (part.signed (within grammar.now.depth)) tokens.old.input result tokens.new.input }
    ensures same { tokens.new.names ≡ grammar.now.maker.names.now }
    ensures named { IfOk result (IsNamed grammar.now.maker.names.now) }
{
    if negative_next(tokens) {
        negative(grammar, tokens)
    } else {
        minus_or_postfix(grammar, tokens)
    }
}

/// An operand of the levels (11.2.5 and 11.4.3).
#[tactic(auto, unfolding(zw_def_syntax::specs::Expression::unary))]
pub(crate) fn unary<
    't,
    F: Fn(Maker<'t>, &mut Cursor<'t>, usize, Within) -> Result<Read, MakeFault>,
>(grammar: &Grammar<'t, F>, tokens: &mut Cursor<'t>) -> Result<Built, MakeFault>
    requires nests { Nests grammar.now.maker.names.now grammar.now.depth (F.pre grammar.now.inner)
        (F.post grammar.now.inner) }
    requires same { tokens.old.names ≡ grammar.now.maker.names.now }
    ensures reads { Reads (grown_seen grammar.now.maker.names.now)
        (spec.unary (within grammar.now.depth)) tokens.old.input result tokens.new.input }
    ensures same { tokens.new.names ≡ grammar.now.maker.names.now }
    ensures named { IfOk result (IsNamed grammar.now.maker.names.now) }
{
    if tokens.sign_next(Punctuation::Bang) {
        inverted(grammar, tokens)
    } else {
        signed(grammar, tokens)
    }
}

/// An operand more, with the sign before it.
#[tactic(auto, using(crate::proofs::NamedLemmas::operand_pushed), unfolding(zw_def_syntax::specs::Expression::operand))]
#[inline(never)]
pub(crate) fn operand<
    't,
    F: Fn(Maker<'t>, &mut Cursor<'t>, usize, Within) -> Result<Read, MakeFault>,
>(
    grammar: &Grammar<'t, F>,
    tokens: &mut Cursor<'t>,
    mut found: VecDeque<Operand>,
) -> Result<VecDeque<Operand>, MakeFault>
    requires nests { Nests grammar.now.maker.names.now grammar.now.depth (F.pre grammar.now.inner)
        (F.post grammar.now.inner) }
    requires same { tokens.old.names ≡ grammar.now.maker.names.now }
    requires found { AreNamedOperands grammar.now.maker.names.now found.items }
    ensures reads { Reads (λ all. operands_seen grammar.now.maker.names.now all.items)
        (spec.operand (within grammar.now.depth) (operands_seen grammar.now.maker.names.now found.items))
        tokens.old.input result tokens.new.input }
    ensures same { tokens.new.names ≡ grammar.now.maker.names.now }
    ensures named { IfOk result (λ all. AreNamedOperands grammar.now.maker.names.now all.items) }
{
    let sign = take_operand_sign(tokens)?;
    let value = unary(grammar, tokens)?;
    found.push_back(Operand {
        sign: Some(sign),
        value,
    })?;
    Ok(found)
}

/// The operands after the first.
#[tactic(auto, using(zw_def_syntax::proofs::TurnLemmas::loop_ended, zw_def_syntax::proofs::TurnLemmas::loop_refused, zw_def_syntax::proofs::TurnLemmas::loop_gone_on, zw_def_syntax::proofs::TurnLemmas::loop_done))]
#[inline(never)]
pub(crate) fn operands<
    't,
    F: Fn(Maker<'t>, &mut Cursor<'t>, usize, Within) -> Result<Read, MakeFault>,
>(
    grammar: &Grammar<'t, F>,
    tokens: &mut Cursor<'t>,
    mut found: VecDeque<Operand>,
) -> Result<VecDeque<Operand>, MakeFault>
    requires nests { Nests grammar.now.maker.names.now grammar.now.depth (F.pre grammar.now.inner)
        (F.post grammar.now.inner) }
    requires same { tokens.old.names ≡ grammar.now.maker.names.now }
    requires found { AreNamedOperands grammar.now.maker.names.now found.items }
    ensures reads { Reads (λ all. operands_seen grammar.now.maker.names.now all.items)
        (repeated (kind_is (is_sign_of operand_signs) 0) (spec.operand (within grammar.now.depth)) (operands_seen grammar.now.maker.names.now found.items))
        tokens.old.input result tokens.new.input }
    ensures same { tokens.new.names ≡ grammar.now.maker.names.now }
    ensures named { IfOk result (λ all. AreNamedOperands grammar.now.maker.names.now all.items) }
{
    'turn: for _turn in 0..tokens.left() {
        if !operand_next(tokens) {
            return Ok(found);
        }
        found = operand(grammar, tokens, found)?;
    }
    Ok(found)
}

// The node of a first operand and those behind it; where there are none, the operand.
#[inline(never)]
fn folded(maker: &Maker<'_>, first: Built, mut more: VecDeque<Operand>) -> Result<Built, MakeFault>
    requires first { IsNamed maker.now.names.now first }
    requires more { AreNamedOperands maker.now.names.now more.items }
    ensures told { Gives (grown_seen maker.now.names.now) (part.folded (grown_seen maker.now.names.now first)
        (operands_seen maker.now.names.now more.items)) result }
    ensures named { IfOk result (IsNamed maker.now.names.now) }
{
    if more.is_empty() {
        return Ok(first);
    }
    more.push_front(Operand {
        sign: None,
        value: first,
    })?;
    fold(maker, more)
}

/// The levels from `||` to `*`, from their first operand on (11.2 and 11.4.4).
#[tactic(auto, unfolding(zw_def_syntax::specs::Expression::operation_from))]
#[inline(never)]
pub(crate) fn operation_from<
    't,
    F: Fn(Maker<'t>, &mut Cursor<'t>, usize, Within) -> Result<Read, MakeFault>,
>(grammar: &Grammar<'t, F>, tokens: &mut Cursor<'t>, first: Built) -> Result<Built, MakeFault>
    requires nests { Nests grammar.now.maker.names.now grammar.now.depth (F.pre grammar.now.inner)
        (F.post grammar.now.inner) }
    requires same { tokens.old.names ≡ grammar.now.maker.names.now }
    requires first { IsNamed grammar.now.maker.names.now first }
    ensures reads { Reads (grown_seen grammar.now.maker.names.now)
        (spec.operation_from (within grammar.now.depth) (grown_seen grammar.now.maker.names.now first))
        tokens.old.input result tokens.new.input }
    ensures same { tokens.new.names ≡ grammar.now.maker.names.now }
    ensures named { IfOk result (IsNamed grammar.now.maker.names.now) }
{
    let more = operands(grammar, tokens, VecDeque::new(grammar.maker.alloc))?;
    folded(&grammar.maker, first, more)
}

/// The bodies behind `?`.
#[derive(Drop)]
pub(crate) struct Bodies {
    pub(crate) body: Vec<Built>,
    pub(crate) other: Vec<Built>,
}

/// `a : b`.
#[inline(never)]
pub(crate) fn both_alternatives<
    't,
    F: Fn(Maker<'t>, &mut Cursor<'t>, usize, Within) -> Result<Read, MakeFault>,
>(grammar: &Grammar<'t, F>, tokens: &mut Cursor<'t>) -> Result<Bodies, MakeFault>
    requires nests { Nests grammar.now.maker.names.now grammar.now.depth (F.pre grammar.now.inner)
        (F.post grammar.now.inner) }
    requires same { tokens.old.names ≡ grammar.now.maker.names.now }
    ensures reads { Reads (bodies_seen grammar.now.maker.names.now)
        (part.both_alternatives (within grammar.now.depth)) tokens.old.input result tokens.new.input }
    ensures same { tokens.new.names ≡ grammar.now.maker.names.now }
    ensures named { IfOk result (λ both. AreNamed grammar.now.maker.names.now both.body.items
        × AreNamed grammar.now.maker.names.now both.other.items) }
{
    let body = first_argument(grammar, tokens)?;
    tokens.take_sign(Punctuation::Colon)?;
    let other = first_argument(grammar, tokens)?;
    Ok(Bodies { body, other })
}

/// `? a : b` after a test (11.5.2.2).
#[tactic(auto, using(crate::proofs::PartLemmas::alternatives_by_both))]
#[inline(never)]
pub(crate) fn alternatives<
    't,
    F: Fn(Maker<'t>, &mut Cursor<'t>, usize, Within) -> Result<Read, MakeFault>,
>(grammar: &Grammar<'t, F>, tokens: &mut Cursor<'t>, test: Built) -> Result<Built, MakeFault>
    requires nests { Nests grammar.now.maker.names.now grammar.now.depth (F.pre grammar.now.inner)
        (F.post grammar.now.inner) }
    requires same { tokens.old.names ≡ grammar.now.maker.names.now }
    requires test { IsNamed grammar.now.maker.names.now test }
    ensures reads { Reads (grown_seen grammar.now.maker.names.now)
        (spec.alternatives (within grammar.now.depth) (grown_seen grammar.now.maker.names.now test)) tokens.old.input result tokens.new.input }
    ensures same { tokens.new.names ≡ grammar.now.maker.names.now }
    ensures named { IfOk result (IsNamed grammar.now.maker.names.now) }
{
    tokens.take_token();
    let both = both_alternatives(grammar, tokens)?;
    grammar
        .maker
        .choice(Order::TestFirst, test, both.body, both.other)
}

/// A ternary, from its first operand on.
#[tactic(auto, unfolding(zw_def_syntax::specs::Expression::ternary_from))]
#[inline(never)]
pub(crate) fn ternary_from<
    't,
    F: Fn(Maker<'t>, &mut Cursor<'t>, usize, Within) -> Result<Read, MakeFault>,
>(grammar: &Grammar<'t, F>, tokens: &mut Cursor<'t>, first: Built) -> Result<Built, MakeFault>
    requires nests { Nests grammar.now.maker.names.now grammar.now.depth (F.pre grammar.now.inner)
        (F.post grammar.now.inner) }
    requires same { tokens.old.names ≡ grammar.now.maker.names.now }
    requires first { IsNamed grammar.now.maker.names.now first }
    ensures reads { Reads (grown_seen grammar.now.maker.names.now)
        (spec.ternary_from (within grammar.now.depth) (grown_seen grammar.now.maker.names.now first))
        tokens.old.input result tokens.new.input }
    ensures same { tokens.new.names ≡ grammar.now.maker.names.now }
    ensures named { IfOk result (IsNamed grammar.now.maker.names.now) }
{
    let test = operation_from(grammar, tokens, first)?;
    if tokens.sign_next(Punctuation::Question) {
        alternatives(grammar, tokens, test)
    } else {
        Ok(test)
    }
}

/// `a ? b : c` (11.5.2.2).
#[tactic(auto, unfolding(zw_def_syntax::specs::Expression::ternary))]
#[inline(never)]
pub(crate) fn ternary<
    't,
    F: Fn(Maker<'t>, &mut Cursor<'t>, usize, Within) -> Result<Read, MakeFault>,
>(grammar: &Grammar<'t, F>, tokens: &mut Cursor<'t>) -> Result<Built, MakeFault>
    requires nests { Nests grammar.now.maker.names.now grammar.now.depth (F.pre grammar.now.inner)
        (F.post grammar.now.inner) }
    requires same { tokens.old.names ≡ grammar.now.maker.names.now }
    ensures reads { Reads (grown_seen grammar.now.maker.names.now) (spec.ternary (within grammar.now.depth))
        tokens.old.input result tokens.new.input }
    ensures same { tokens.new.names ≡ grammar.now.maker.names.now }
    ensures named { IfOk result (IsNamed grammar.now.maker.names.now) }
{
    let first = unary(grammar, tokens)?;
    ternary_from(grammar, tokens, first)
}
