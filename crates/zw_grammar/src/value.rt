//! Values. Section numbers are those of ISO/IEC 30170.
ghost use Rattle.std.specs.Prelude.{◌≡◌, IfOk};
ghost use Rattle.zw_def_syntax.specs.Grammar as spec;
ghost use Rattle.zw_def_syntax.specs.Grammar.{within};
ghost use Rattle.zw_ast.specs.Grown.{grown_seen};
ghost use Rattle.zw_ast.specs.Named.{IsName, IsNamed};
ghost use Rattle.zw_ast.specs.Node.{name_seen};
ghost use Rattle.zw_expr.specs.Nests.{Nests};
ghost use Rattle.zw_expr.specs.Reads.{Reads};
ghost use Rattle.zw_def_syntax.specs.Expression as e;
ghost use Rattle.zw_def_syntax.specs.Input.{repeated};
ghost use Rattle.zw_grammar.specs.Part as part;

use crate::ahead::{
    assignment_next, attribute_next, call_command_next, command_next, operator_next,
    plain_suffix_next, return_ends, scoped_target_next, super_command_next, update_next,
};
use crate::assignment::{assignment, attribute_assignment, scoped_assignment};
use crate::command::{call_command, command, super_command};
use crate::operation::{ternary, ternary_from};
use crate::postfix::suffix;
use crate::primary::primary;
use crate::take::taken;
use crate::update::update;
use zw_ast::{Built, MakeFault, Maker};
use zw_expr::{Cursor, Form, Grammar, Read, Within};
use zw_lexer::Keyword;

/// What goes on with a postfix at the front of a value.
#[tactic(auto, using(zw_def_syntax::proofs::TurnLemmas::loop_ended, zw_def_syntax::proofs::TurnLemmas::loop_refused, zw_def_syntax::proofs::TurnLemmas::loop_gone_on, zw_def_syntax::proofs::TurnLemmas::loop_done))]
#[inline(never)]
pub(crate) fn plain_suffixes<
    't,
    F: Fn(Maker<'t>, &mut Cursor<'t>, usize, Within) -> Result<Read, MakeFault>,
>(
    grammar: &Grammar<'t, F>,
    tokens: &mut Cursor<'t>,
    mut receiver: Built,
) -> Result<Built, MakeFault>
    requires nests { Nests grammar.now.maker.names.now grammar.now.depth (F.pre grammar.now.inner)
        (F.post grammar.now.inner) }
    requires same { tokens.old.names ≡ grammar.now.maker.names.now }
    requires receiver { IsNamed grammar.now.maker.names.now receiver }
    ensures reads { Reads (grown_seen grammar.now.maker.names.now)
        (repeated spec.plain_suffix_next (e.suffix (within grammar.now.depth)) (grown_seen grammar.now.maker.names.now receiver))
        tokens.old.input result tokens.new.input }
    ensures same { tokens.new.names ≡ grammar.now.maker.names.now }
    ensures named { IfOk result (IsNamed grammar.now.maker.names.now) }
{
    'turn: for _turn in 0..tokens.left() {
        if !plain_suffix_next(tokens) {
            return Ok(receiver);
        }
        receiver = suffix(grammar, tokens, receiver)?;
    }
    Ok(receiver)
}

/// What stands behind a postfix at the front of a value: a command, or an operation.
pub(crate) fn call_or_operation<
    't,
    F: Fn(Maker<'t>, &mut Cursor<'t>, usize, Within) -> Result<Read, MakeFault>,
>(grammar: &Grammar<'t, F>, tokens: &mut Cursor<'t>, receiver: Built) -> Result<Built, MakeFault>
    requires nests { Nests grammar.now.maker.names.now grammar.now.depth (F.pre grammar.now.inner)
        (F.post grammar.now.inner) }
    requires same { tokens.old.names ≡ grammar.now.maker.names.now }
    requires receiver { IsNamed grammar.now.maker.names.now receiver }
    ensures reads { Reads (grown_seen grammar.now.maker.names.now)
        (part.call_or_operation (within grammar.now.depth) (grown_seen grammar.now.maker.names.now receiver)) tokens.old.input result tokens.new.input }
    ensures same { tokens.new.names ≡ grammar.now.maker.names.now }
    ensures named { IfOk result (IsNamed grammar.now.maker.names.now) }
{
    if call_command_next(tokens) {
        call_command(grammar, tokens, receiver)
    } else {
        ternary_from(grammar, tokens, receiver)
    }
}

/// What stands behind a postfix, and assigns to no constant.
pub(crate) fn attribute_or_call<
    't,
    F: Fn(Maker<'t>, &mut Cursor<'t>, usize, Within) -> Result<Read, MakeFault>,
>(grammar: &Grammar<'t, F>, tokens: &mut Cursor<'t>, receiver: Built) -> Result<Built, MakeFault>
    requires nests { Nests grammar.now.maker.names.now grammar.now.depth (F.pre grammar.now.inner)
        (F.post grammar.now.inner) }
    requires same { tokens.old.names ≡ grammar.now.maker.names.now }
    requires receiver { IsNamed grammar.now.maker.names.now receiver }
    ensures reads { Reads (grown_seen grammar.now.maker.names.now)
        (part.attribute_or_call (within grammar.now.depth) (grown_seen grammar.now.maker.names.now receiver)) tokens.old.input result tokens.new.input }
    ensures same { tokens.new.names ≡ grammar.now.maker.names.now }
    ensures named { IfOk result (IsNamed grammar.now.maker.names.now) }
{
    if attribute_next(tokens) {
        attribute_assignment(grammar, tokens, receiver)
    } else {
        call_or_operation(grammar, tokens, receiver)
    }
}

/// What stands behind a postfix at the front of a value.
pub(crate) fn behind_postfix<
    't,
    F: Fn(Maker<'t>, &mut Cursor<'t>, usize, Within) -> Result<Read, MakeFault>,
>(grammar: &Grammar<'t, F>, tokens: &mut Cursor<'t>, receiver: Built) -> Result<Built, MakeFault>
    requires nests { Nests grammar.now.maker.names.now grammar.now.depth (F.pre grammar.now.inner)
        (F.post grammar.now.inner) }
    requires same { tokens.old.names ≡ grammar.now.maker.names.now }
    requires receiver { IsNamed grammar.now.maker.names.now receiver }
    ensures reads { Reads (grown_seen grammar.now.maker.names.now)
        (part.behind_postfix (within grammar.now.depth) (grown_seen grammar.now.maker.names.now receiver)) tokens.old.input result tokens.new.input }
    ensures same { tokens.new.names ≡ grammar.now.maker.names.now }
    ensures named { IfOk result (IsNamed grammar.now.maker.names.now) }
{
    if scoped_target_next(tokens) {
        scoped_assignment(grammar, tokens, receiver)
    } else {
        attribute_or_call(grammar, tokens, receiver)
    }
}

/// What a postfix at the front of a value is: a target, the front of a command, or an operand.
#[tactic(auto, unfolding(zw_def_syntax::specs::Grammar::postfix_value))]
#[inline(never)]
pub(crate) fn postfix_value<
    't,
    F: Fn(Maker<'t>, &mut Cursor<'t>, usize, Within) -> Result<Read, MakeFault>,
>(grammar: &Grammar<'t, F>, tokens: &mut Cursor<'t>) -> Result<Built, MakeFault>
    requires nests { Nests grammar.now.maker.names.now grammar.now.depth (F.pre grammar.now.inner)
        (F.post grammar.now.inner) }
    requires same { tokens.old.names ≡ grammar.now.maker.names.now }
    ensures reads { Reads (grown_seen grammar.now.maker.names.now)
        (spec.postfix_value (within grammar.now.depth)) tokens.old.input result tokens.new.input }
    ensures same { tokens.new.names ≡ grammar.now.maker.names.now }
    ensures named { IfOk result (IsNamed grammar.now.maker.names.now) }
{
    let first = primary(grammar, tokens)?;
    let receiver = plain_suffixes(grammar, tokens, first)?;
    behind_postfix(grammar, tokens, receiver)
}

/// `return` (11.5.2.4).
#[tactic(auto, unfolding(zw_def_syntax::specs::Grammar::return_rule))]
#[inline(never)]
pub(crate) fn return_rule<
    't,
    F: Fn(Maker<'t>, &mut Cursor<'t>, usize, Within) -> Result<Read, MakeFault>,
>(grammar: &Grammar<'t, F>, tokens: &mut Cursor<'t>) -> Result<Built, MakeFault>
    requires nests { Nests grammar.now.maker.names.now grammar.now.depth (F.pre grammar.now.inner)
        (F.post grammar.now.inner) }
    requires same { tokens.old.names ≡ grammar.now.maker.names.now }
    ensures reads { Reads (grown_seen grammar.now.maker.names.now)
        (spec.return_rule (within grammar.now.depth)) tokens.old.input result tokens.new.input }
    ensures same { tokens.new.names ≡ grammar.now.maker.names.now }
    ensures named { IfOk result (IsNamed grammar.now.maker.names.now) }
{
    tokens.take_token();
    if return_ends(tokens) {
        return grammar.maker.return_nothing();
    }
    let value = grammar.tree(tokens, Form::Value)?;
    grammar.maker.return_value(value)
}

/// An operation, or what a postfix begins.
pub(crate) fn plain_operation<
    't,
    F: Fn(Maker<'t>, &mut Cursor<'t>, usize, Within) -> Result<Read, MakeFault>,
>(grammar: &Grammar<'t, F>, tokens: &mut Cursor<'t>) -> Result<Built, MakeFault>
    requires nests { Nests grammar.now.maker.names.now grammar.now.depth (F.pre grammar.now.inner)
        (F.post grammar.now.inner) }
    requires same { tokens.old.names ≡ grammar.now.maker.names.now }
    ensures reads { Reads (grown_seen grammar.now.maker.names.now)
        (part.plain_operation (within grammar.now.depth)) tokens.old.input result tokens.new.input }
    ensures same { tokens.new.names ≡ grammar.now.maker.names.now }
    ensures named { IfOk result (IsNamed grammar.now.maker.names.now) }
{
    if operator_next(tokens) {
        ternary(grammar, tokens)
    } else {
        postfix_value(grammar, tokens)
    }
}

/// `super` with arguments, or an operation.
pub(crate) fn super_or_operation<
    't,
    F: Fn(Maker<'t>, &mut Cursor<'t>, usize, Within) -> Result<Read, MakeFault>,
>(grammar: &Grammar<'t, F>, tokens: &mut Cursor<'t>) -> Result<Built, MakeFault>
    requires nests { Nests grammar.now.maker.names.now grammar.now.depth (F.pre grammar.now.inner)
        (F.post grammar.now.inner) }
    requires same { tokens.old.names ≡ grammar.now.maker.names.now }
    ensures reads { Reads (grown_seen grammar.now.maker.names.now)
        (part.super_or_operation (within grammar.now.depth)) tokens.old.input result tokens.new.input }
    ensures same { tokens.new.names ≡ grammar.now.maker.names.now }
    ensures named { IfOk result (IsNamed grammar.now.maker.names.now) }
{
    if super_command_next(tokens) {
        super_command(grammar, tokens)
    } else {
        plain_operation(grammar, tokens)
    }
}

/// A command, or an operation.
pub(crate) fn operation<
    't,
    F: Fn(Maker<'t>, &mut Cursor<'t>, usize, Within) -> Result<Read, MakeFault>,
>(grammar: &Grammar<'t, F>, tokens: &mut Cursor<'t>) -> Result<Built, MakeFault>
    requires nests { Nests grammar.now.maker.names.now grammar.now.depth (F.pre grammar.now.inner)
        (F.post grammar.now.inner) }
    requires same { tokens.old.names ≡ grammar.now.maker.names.now }
    ensures reads { Reads (grown_seen grammar.now.maker.names.now)
        (part.operation (within grammar.now.depth)) tokens.old.input result tokens.new.input }
    ensures same { tokens.new.names ≡ grammar.now.maker.names.now }
    ensures named { IfOk result (IsNamed grammar.now.maker.names.now) }
{
    if command_next(tokens) {
        command(grammar, tokens)
    } else {
        super_or_operation(grammar, tokens)
    }
}

/// `next`, or an operation.
pub(crate) fn next_or_operation<
    't,
    F: Fn(Maker<'t>, &mut Cursor<'t>, usize, Within) -> Result<Read, MakeFault>,
>(grammar: &Grammar<'t, F>, tokens: &mut Cursor<'t>) -> Result<Built, MakeFault>
    requires nests { Nests grammar.now.maker.names.now grammar.now.depth (F.pre grammar.now.inner)
        (F.post grammar.now.inner) }
    requires same { tokens.old.names ≡ grammar.now.maker.names.now }
    ensures reads { Reads (grown_seen grammar.now.maker.names.now)
        (part.next_or_operation (within grammar.now.depth)) tokens.old.input result tokens.new.input }
    ensures same { tokens.new.names ≡ grammar.now.maker.names.now }
    ensures named { IfOk result (IsNamed grammar.now.maker.names.now) }
{
    if tokens.keyword_next(Keyword::Next) {
        taken(tokens, grammar.maker.next_node())
    } else {
        operation(grammar, tokens)
    }
}

/// `break`, or what is no jump but `next`.
pub(crate) fn break_or_operation<
    't,
    F: Fn(Maker<'t>, &mut Cursor<'t>, usize, Within) -> Result<Read, MakeFault>,
>(grammar: &Grammar<'t, F>, tokens: &mut Cursor<'t>) -> Result<Built, MakeFault>
    requires nests { Nests grammar.now.maker.names.now grammar.now.depth (F.pre grammar.now.inner)
        (F.post grammar.now.inner) }
    requires same { tokens.old.names ≡ grammar.now.maker.names.now }
    ensures reads { Reads (grown_seen grammar.now.maker.names.now)
        (part.break_or_operation (within grammar.now.depth)) tokens.old.input result tokens.new.input }
    ensures same { tokens.new.names ≡ grammar.now.maker.names.now }
    ensures named { IfOk result (IsNamed grammar.now.maker.names.now) }
{
    if tokens.keyword_next(Keyword::Break) {
        taken(tokens, grammar.maker.break_node())
    } else {
        next_or_operation(grammar, tokens)
    }
}

/// A value that is no assignment to one token: a jump, a command, or an operation.
pub(crate) fn action<
    't,
    F: Fn(Maker<'t>, &mut Cursor<'t>, usize, Within) -> Result<Read, MakeFault>,
>(grammar: &Grammar<'t, F>, tokens: &mut Cursor<'t>) -> Result<Built, MakeFault>
    requires nests { Nests grammar.now.maker.names.now grammar.now.depth (F.pre grammar.now.inner)
        (F.post grammar.now.inner) }
    requires same { tokens.old.names ≡ grammar.now.maker.names.now }
    ensures reads { Reads (grown_seen grammar.now.maker.names.now)
        (part.action (within grammar.now.depth)) tokens.old.input result tokens.new.input }
    ensures same { tokens.new.names ≡ grammar.now.maker.names.now }
    ensures named { IfOk result (IsNamed grammar.now.maker.names.now) }
{
    if tokens.keyword_next(Keyword::Return) {
        return_rule(grammar, tokens)
    } else {
        break_or_operation(grammar, tokens)
    }
}

/// A variable with the sign that updates it, or no assignment to one token.
pub(crate) fn update_or_action<
    't,
    F: Fn(Maker<'t>, &mut Cursor<'t>, usize, Within) -> Result<Read, MakeFault>,
>(grammar: &Grammar<'t, F>, tokens: &mut Cursor<'t>) -> Result<Built, MakeFault>
    requires nests { Nests grammar.now.maker.names.now grammar.now.depth (F.pre grammar.now.inner)
        (F.post grammar.now.inner) }
    requires same { tokens.old.names ≡ grammar.now.maker.names.now }
    ensures reads { Reads (grown_seen grammar.now.maker.names.now)
        (part.update_or_action (within grammar.now.depth)) tokens.old.input result tokens.new.input }
    ensures same { tokens.new.names ≡ grammar.now.maker.names.now }
    ensures named { IfOk result (IsNamed grammar.now.maker.names.now) }
{
    if update_next(tokens) {
        update(grammar, tokens)
    } else {
        action(grammar, tokens)
    }
}

/// A value (11.3, 11.4.2 and 11.5.2.4).
#[tactic(auto, unfolding(zw_def_syntax::specs::Grammar::value))]
pub(crate) fn value<
    't,
    F: Fn(Maker<'t>, &mut Cursor<'t>, usize, Within) -> Result<Read, MakeFault>,
>(grammar: &Grammar<'t, F>, tokens: &mut Cursor<'t>) -> Result<Built, MakeFault>
    requires nests { Nests grammar.now.maker.names.now grammar.now.depth (F.pre grammar.now.inner)
        (F.post grammar.now.inner) }
    requires same { tokens.old.names ≡ grammar.now.maker.names.now }
    ensures reads { Reads (grown_seen grammar.now.maker.names.now)
        (spec.value (within grammar.now.depth)) tokens.old.input result tokens.new.input }
    ensures same { tokens.new.names ≡ grammar.now.maker.names.now }
    ensures named { IfOk result (IsNamed grammar.now.maker.names.now) }
{
    if assignment_next(tokens) {
        assignment(grammar, tokens)
    } else {
        update_or_action(grammar, tokens)
    }
}
