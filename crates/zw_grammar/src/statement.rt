//! Lines and statements. Section numbers are those of ISO/IEC 30170.
ghost use Rattle.std.specs.Prelude.{◌≡◌, ◌&&◌, List, IfOk};
ghost use Rattle.zw_def.specs.Text.{Text};
ghost use Rattle.zw_def_syntax.specs.Grammar as spec;
ghost use Rattle.zw_def_syntax.specs.Grammar.{within};
ghost use Rattle.zw_ast.specs.Grown.{grown_seen};
ghost use Rattle.zw_ast.specs.Named.{IsName, IsNamed};
ghost use Rattle.zw_ast.specs.Node.{tree_seen};
ghost use Rattle.zw_expr.specs.Nests.{Nests};
ghost use Rattle.zw_expr.specs.Reads.{Reads};
ghost use Rattle.zw_def_syntax.specs.Input.{is_keyword_of, kind_is, repeated};
ghost use Rattle.zw_grammar.specs.Part as part;

use crate::ahead::{logic_next, loop_next, modifier_next};
use crate::build::{joined, modified};
use crate::take::take_any_keyword;
use crate::value::value;
use zw_ast::{Built, MakeFault, Maker, Malformed, Node};
use zw_expr::{Cursor, Form, Grammar, Read, Within};
use zw_lexer::Keyword;

/// `not` (11.2.2).
#[inline(never)]
pub(crate) fn negated<
    't,
    F: Fn(Maker<'t>, &mut Cursor<'t>, usize, Within) -> Result<Read, MakeFault>,
>(grammar: &Grammar<'t, F>, tokens: &mut Cursor<'t>) -> Result<Built, MakeFault>
    requires nests { Nests grammar.now.maker.names.now grammar.now.depth (F.pre grammar.now.inner)
        (F.post grammar.now.inner) }
    requires same { tokens.old.names ≡ grammar.now.maker.names.now }
    ensures reads { Reads (grown_seen grammar.now.maker.names.now) (part.negated (within grammar.now.depth))
        tokens.old.input result tokens.new.input }
    ensures same { tokens.new.names ≡ grammar.now.maker.names.now }
    ensures named { IfOk result (IsNamed grammar.now.maker.names.now) }
{
    tokens.take_token();
    let value = grammar.tree(tokens, Form::Inverse)?;
    grammar.maker.negation(value)
}

/// `not`, or a value (11.2.2).
#[tactic(auto, unfolding(zw_def_syntax::specs::Grammar::inverse))]
pub(crate) fn inverse<
    't,
    F: Fn(Maker<'t>, &mut Cursor<'t>, usize, Within) -> Result<Read, MakeFault>,
>(grammar: &Grammar<'t, F>, tokens: &mut Cursor<'t>) -> Result<Built, MakeFault>
    requires nests { Nests grammar.now.maker.names.now grammar.now.depth (F.pre grammar.now.inner)
        (F.post grammar.now.inner) }
    requires same { tokens.old.names ≡ grammar.now.maker.names.now }
    ensures reads { Reads (grown_seen grammar.now.maker.names.now) (spec.inverse (within grammar.now.depth))
        tokens.old.input result tokens.new.input }
    ensures same { tokens.new.names ≡ grammar.now.maker.names.now }
    ensures named { IfOk result (IsNamed grammar.now.maker.names.now) }
{
    if tokens.keyword_next(Keyword::Not) {
        negated(grammar, tokens)
    } else {
        value(grammar, tokens)
    }
}

/// `and` and `or` (11.2.3 and 11.2.4).
#[tactic(auto, unfolding(zw_def_syntax::specs::Grammar::logic))]
#[inline(never)]
pub(crate) fn logic<
    't,
    F: Fn(Maker<'t>, &mut Cursor<'t>, usize, Within) -> Result<Read, MakeFault>,
>(grammar: &Grammar<'t, F>, tokens: &mut Cursor<'t>, left: Built) -> Result<Built, MakeFault>
    requires nests { Nests grammar.now.maker.names.now grammar.now.depth (F.pre grammar.now.inner)
        (F.post grammar.now.inner) }
    requires same { tokens.old.names ≡ grammar.now.maker.names.now }
    requires left { IsNamed grammar.now.maker.names.now left }
    ensures reads { Reads (grown_seen grammar.now.maker.names.now)
        (spec.logic (within grammar.now.depth) (grown_seen grammar.now.maker.names.now left))
        tokens.old.input result tokens.new.input }
    ensures same { tokens.new.names ≡ grammar.now.maker.names.now }
    ensures named { IfOk result (IsNamed grammar.now.maker.names.now) }
{
    let word = take_any_keyword(tokens)?;
    let right = inverse(grammar, tokens)?;
    joined(&grammar.maker, word, left, right)
}

/// What `and` and `or` join to a part.
#[tactic(auto, using(zw_def_syntax::proofs::TurnLemmas::loop_ended, zw_def_syntax::proofs::TurnLemmas::loop_refused, zw_def_syntax::proofs::TurnLemmas::loop_gone_on, zw_def_syntax::proofs::TurnLemmas::loop_done))]
#[inline(never)]
pub(crate) fn more_logic<
    't,
    F: Fn(Maker<'t>, &mut Cursor<'t>, usize, Within) -> Result<Read, MakeFault>,
>(grammar: &Grammar<'t, F>, tokens: &mut Cursor<'t>, mut left: Built) -> Result<Built, MakeFault>
    requires nests { Nests grammar.now.maker.names.now grammar.now.depth (F.pre grammar.now.inner)
        (F.post grammar.now.inner) }
    requires same { tokens.old.names ≡ grammar.now.maker.names.now }
    requires left { IsNamed grammar.now.maker.names.now left }
    ensures reads { Reads (grown_seen grammar.now.maker.names.now)
        (repeated (kind_is (is_keyword_of "and or") 0) (spec.logic (within grammar.now.depth)) (grown_seen grammar.now.maker.names.now left))
        tokens.old.input result tokens.new.input }
    ensures same { tokens.new.names ≡ grammar.now.maker.names.now }
    ensures named { IfOk result (IsNamed grammar.now.maker.names.now) }
{
    'turn: for _turn in 0..tokens.left() {
        if !logic_next(tokens) {
            return Ok(left);
        }
        left = logic(grammar, tokens, left)?;
    }
    Ok(left)
}

/// A line (11.2.3 and 11.2.4).
#[tactic(auto, unfolding(zw_def_syntax::specs::Grammar::line))]
#[inline(never)]
pub(crate) fn line<'t, F: Fn(Maker<'t>, &mut Cursor<'t>, usize, Within) -> Result<Read, MakeFault>>(
    grammar: &Grammar<'t, F>,
    tokens: &mut Cursor<'t>,
) -> Result<Built, MakeFault>
    requires nests { Nests grammar.now.maker.names.now grammar.now.depth (F.pre grammar.now.inner)
        (F.post grammar.now.inner) }
    requires same { tokens.old.names ≡ grammar.now.maker.names.now }
    ensures reads { Reads (grown_seen grammar.now.maker.names.now) (spec.line (within grammar.now.depth))
        tokens.old.input result tokens.new.input }
    ensures same { tokens.new.names ≡ grammar.now.maker.names.now }
    ensures named { IfOk result (IsNamed grammar.now.maker.names.now) }
{
    let first = inverse(grammar, tokens)?;
    more_logic(grammar, tokens, first)
}

/// A modifier (12.3 to 12.6).
#[tactic(auto, unfolding(zw_def_syntax::specs::Grammar::modifier))]
#[inline(never)]
pub(crate) fn modifier<
    't,
    F: Fn(Maker<'t>, &mut Cursor<'t>, usize, Within) -> Result<Read, MakeFault>,
>(grammar: &Grammar<'t, F>, tokens: &mut Cursor<'t>, body: Built) -> Result<Built, MakeFault>
    requires nests { Nests grammar.now.maker.names.now grammar.now.depth (F.pre grammar.now.inner)
        (F.post grammar.now.inner) }
    requires same { tokens.old.names ≡ grammar.now.maker.names.now }
    requires body { IsNamed grammar.now.maker.names.now body }
    ensures reads { Reads (grown_seen grammar.now.maker.names.now)
        (spec.modifier (within grammar.now.depth) (grown_seen grammar.now.maker.names.now body))
        tokens.old.input result tokens.new.input }
    ensures same { tokens.new.names ≡ grammar.now.maker.names.now }
    ensures named { IfOk result (IsNamed grammar.now.maker.names.now) }
{
    let word = take_any_keyword(tokens)?;
    let test = line(grammar, tokens)?;
    modified(&grammar.maker, word, body, test)
}

/// All modifiers behind a line.
#[tactic(auto, using(zw_def_syntax::proofs::TurnLemmas::loop_ended, zw_def_syntax::proofs::TurnLemmas::loop_refused, zw_def_syntax::proofs::TurnLemmas::loop_gone_on, zw_def_syntax::proofs::TurnLemmas::loop_done))]
#[inline(never)]
pub(crate) fn modifiers<
    't,
    F: Fn(Maker<'t>, &mut Cursor<'t>, usize, Within) -> Result<Read, MakeFault>,
>(grammar: &Grammar<'t, F>, tokens: &mut Cursor<'t>, mut body: Built) -> Result<Built, MakeFault>
    requires nests { Nests grammar.now.maker.names.now grammar.now.depth (F.pre grammar.now.inner)
        (F.post grammar.now.inner) }
    requires same { tokens.old.names ≡ grammar.now.maker.names.now }
    requires body { IsNamed grammar.now.maker.names.now body }
    ensures reads { Reads (grown_seen grammar.now.maker.names.now)
        (spec.modifiers (within grammar.now.depth) (grown_seen grammar.now.maker.names.now body))
        tokens.old.input result tokens.new.input }
    ensures same { tokens.new.names ≡ grammar.now.maker.names.now }
    ensures named { IfOk result (IsNamed grammar.now.maker.names.now) }
{
    'turn: for _turn in 0..tokens.left() {
        if !modifier_next(tokens) {
            return Ok(body);
        }
        body = modifier(grammar, tokens, body)?;
    }
    Ok(body)
}

// Whether a line that began with `begin` or not is the node of a `begin` form.
fn is_begun(begun: bool, body: &Node) -> bool
    ensures { (names : List Text) → result ≡ (begun && spec.is_begin_node (tree_seen names body.now)) }
{
    if begun { body.is_begin() } else { false }
}

// Whether `while` or `until` follows a `begin` form, which takes neither.
fn loop_is_refused(tokens: &Cursor<'_>, begun: bool, body: &Node) -> bool
    ensures { (names : List Text) → result ≡ (begun && spec.is_begin_node (tree_seen names body.now)
        && kind_is (is_keyword_of "while until") 0 tokens.now.input) }
{
    if is_begun(begun, body) {
        loop_next(tokens)
    } else {
        false
    }
}

/// What stands behind the line of a statement, which began with `begin` or not.
pub(crate) fn after_line<
    't,
    F: Fn(Maker<'t>, &mut Cursor<'t>, usize, Within) -> Result<Read, MakeFault>,
>(
    grammar: &Grammar<'t, F>,
    tokens: &mut Cursor<'t>,
    begun: bool,
    body: Built,
) -> Result<Built, MakeFault>
    requires nests { Nests grammar.now.maker.names.now grammar.now.depth (F.pre grammar.now.inner)
        (F.post grammar.now.inner) }
    requires same { tokens.old.names ≡ grammar.now.maker.names.now }
    requires body { IsNamed grammar.now.maker.names.now body }
    ensures reads { Reads (grown_seen grammar.now.maker.names.now)
        (spec.after_line (within grammar.now.depth) begun (grown_seen grammar.now.maker.names.now body))
        tokens.old.input result tokens.new.input }
    ensures same { tokens.new.names ≡ grammar.now.maker.names.now }
    ensures named { IfOk result (IsNamed grammar.now.maker.names.now) }
{
    if loop_is_refused(tokens, begun, body.form.get()) {
        return Err(MakeFault::Refused(Malformed));
    }
    modifiers(grammar, tokens, body)
}

/// A statement (12).
#[tactic(auto, unfolding(zw_def_syntax::specs::Grammar::statement))]
#[inline(never)]
pub(crate) fn statement<
    't,
    F: Fn(Maker<'t>, &mut Cursor<'t>, usize, Within) -> Result<Read, MakeFault>,
>(grammar: &Grammar<'t, F>, tokens: &mut Cursor<'t>) -> Result<Built, MakeFault>
    requires nests { Nests grammar.now.maker.names.now grammar.now.depth (F.pre grammar.now.inner)
        (F.post grammar.now.inner) }
    requires same { tokens.old.names ≡ grammar.now.maker.names.now }
    ensures reads { Reads (grown_seen grammar.now.maker.names.now)
        (spec.statement (within grammar.now.depth)) tokens.old.input result tokens.new.input }
    ensures same { tokens.new.names ≡ grammar.now.maker.names.now }
    ensures named { IfOk result (IsNamed grammar.now.maker.names.now) }
{
    let begun = tokens.keyword_next(Keyword::Begin);
    let body = line(grammar, tokens)?;
    after_line(grammar, tokens, begun, body)
}
