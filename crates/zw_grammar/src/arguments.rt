//! Lists of arguments and of items. Section numbers are those of ISO/IEC 30170.
ghost use Rattle.std.specs.Prelude.{◌≡◌, IfOk};
ghost use Rattle.zw_def_syntax.specs.Expression as spec;
ghost use Rattle.zw_def_syntax.specs.Grammar.{within};
ghost use Rattle.zw_def_syntax.specs.Input.{repeated, sign_next};
ghost use Rattle.zw_ast.specs.Grown.{all_seen};
ghost use Rattle.zw_ast.specs.Named.{AreNamed};
ghost use Rattle.zw_expr.specs.Nests.{Nests};
ghost use Rattle.zw_expr.specs.Reads.{Reads};
ghost use Rattle.zw_grammar.specs.Part as part;

use crate::sight::item_next;
use zw_ast::{Built, MakeFault, Maker};
use zw_expr::{Cursor, Form, Grammar, Read, Within};
use zw_lexer::Punctuation;

/// One argument more.
#[tactic(auto, using(crate::proofs::NamedLemmas::named_pushed))]
#[inline(never)]
pub(crate) fn one_more<
    't,
    F: Fn(Maker<'t>, &mut Cursor<'t>, usize, Within) -> Result<Read, MakeFault>,
>(
    grammar: &Grammar<'t, F>,
    tokens: &mut Cursor<'t>,
    mut found: Vec<Built>,
) -> Result<Vec<Built>, MakeFault>
    requires nests { Nests grammar.now.maker.names.now grammar.now.depth (F.pre grammar.now.inner)
        (F.post grammar.now.inner) }
    requires same { tokens.old.names ≡ grammar.now.maker.names.now }
    requires found { AreNamed grammar.now.maker.names.now found.items }
    ensures reads { Reads (λ all. all_seen grammar.now.maker.names.now all.items)
        (spec.one_more (within grammar.now.depth) (all_seen grammar.now.maker.names.now found.items))
        tokens.old.input result tokens.new.input }
    ensures same { tokens.new.names ≡ grammar.now.maker.names.now }
    ensures named { IfOk result (λ all. AreNamed grammar.now.maker.names.now all.items) }
{
    tokens.take_token();
    found.push(grammar.tree(tokens, Form::Ternary)?)?;
    Ok(found)
}

/// The arguments after the first.
#[tactic(auto, using(zw_def_syntax::proofs::TurnLemmas::loop_ended, zw_def_syntax::proofs::TurnLemmas::loop_refused, zw_def_syntax::proofs::TurnLemmas::loop_gone_on, zw_def_syntax::proofs::TurnLemmas::loop_done))]
#[inline(never)]
pub(crate) fn more_arguments<
    't,
    F: Fn(Maker<'t>, &mut Cursor<'t>, usize, Within) -> Result<Read, MakeFault>,
>(
    grammar: &Grammar<'t, F>,
    tokens: &mut Cursor<'t>,
    mut found: Vec<Built>,
) -> Result<Vec<Built>, MakeFault>
    requires nests { Nests grammar.now.maker.names.now grammar.now.depth (F.pre grammar.now.inner)
        (F.post grammar.now.inner) }
    requires same { tokens.old.names ≡ grammar.now.maker.names.now }
    requires found { AreNamed grammar.now.maker.names.now found.items }
    ensures reads { Reads (λ all. all_seen grammar.now.maker.names.now all.items)
        (repeated (sign_next ",") (spec.one_more (within grammar.now.depth)) (all_seen grammar.now.maker.names.now found.items))
        tokens.old.input result tokens.new.input }
    ensures same { tokens.new.names ≡ grammar.now.maker.names.now }
    ensures named { IfOk result (λ all. AreNamed grammar.now.maker.names.now all.items) }
{
    'turn: for _turn in 0..tokens.left() {
        if !tokens.sign_next(Punctuation::Comma) {
            return Ok(found);
        }
        found = one_more(grammar, tokens, found)?;
    }
    Ok(found)
}

/// The first of a list.
#[inline(never)]
pub(crate) fn first_argument<
    't,
    F: Fn(Maker<'t>, &mut Cursor<'t>, usize, Within) -> Result<Read, MakeFault>,
>(grammar: &Grammar<'t, F>, tokens: &mut Cursor<'t>) -> Result<Vec<Built>, MakeFault>
    requires nests { Nests grammar.now.maker.names.now grammar.now.depth (F.pre grammar.now.inner)
        (F.post grammar.now.inner) }
    requires same { tokens.old.names ≡ grammar.now.maker.names.now }
    ensures reads { Reads (λ all. all_seen grammar.now.maker.names.now all.items)
        (part.first_argument (within grammar.now.depth)) tokens.old.input result tokens.new.input }
    ensures same { tokens.new.names ≡ grammar.now.maker.names.now }
    ensures named { IfOk result (λ all. AreNamed grammar.now.maker.names.now all.items) }
{
    let mut found = Vec::new(grammar.maker.alloc);
    found.push(grammar.tree(tokens, Form::Ternary)?)?;
    Ok(found)
}

/// `a, b` (11.3.2).
#[tactic(auto, unfolding(zw_def_syntax::specs::Expression::arguments))]
#[inline(never)]
pub(crate) fn arguments<
    't,
    F: Fn(Maker<'t>, &mut Cursor<'t>, usize, Within) -> Result<Read, MakeFault>,
>(grammar: &Grammar<'t, F>, tokens: &mut Cursor<'t>) -> Result<Vec<Built>, MakeFault>
    requires nests { Nests grammar.now.maker.names.now grammar.now.depth (F.pre grammar.now.inner)
        (F.post grammar.now.inner) }
    requires same { tokens.old.names ≡ grammar.now.maker.names.now }
    ensures reads { Reads (λ all. all_seen grammar.now.maker.names.now all.items)
        (spec.arguments (within grammar.now.depth)) tokens.old.input result tokens.new.input }
    ensures same { tokens.new.names ≡ grammar.now.maker.names.now }
    ensures named { IfOk result (λ all. AreNamed grammar.now.maker.names.now all.items) }
{
    let first = first_argument(grammar, tokens)?;
    more_arguments(grammar, tokens, first)
}

/// Arguments, or none before `)`.
pub(crate) fn optional_arguments<
    't,
    F: Fn(Maker<'t>, &mut Cursor<'t>, usize, Within) -> Result<Read, MakeFault>,
>(grammar: &Grammar<'t, F>, tokens: &mut Cursor<'t>) -> Result<Vec<Built>, MakeFault>
    requires nests { Nests grammar.now.maker.names.now grammar.now.depth (F.pre grammar.now.inner)
        (F.post grammar.now.inner) }
    requires same { tokens.old.names ≡ grammar.now.maker.names.now }
    ensures reads { Reads (λ all. all_seen grammar.now.maker.names.now all.items)
        (part.optional_arguments (within grammar.now.depth)) tokens.old.input result tokens.new.input }
    ensures same { tokens.new.names ≡ grammar.now.maker.names.now }
    ensures named { IfOk result (λ all. AreNamed grammar.now.maker.names.now all.items) }
{
    if tokens.sign_next(Punctuation::CloseParenthesis) {
        Ok(Vec::new(grammar.maker.alloc))
    } else {
        arguments(grammar, tokens)
    }
}

/// `(a, b)` after a method's name.
#[tactic(auto, unfolding(zw_def_syntax::specs::Expression::parens))]
#[inline(never)]
pub(crate) fn parens<
    't,
    F: Fn(Maker<'t>, &mut Cursor<'t>, usize, Within) -> Result<Read, MakeFault>,
>(grammar: &Grammar<'t, F>, tokens: &mut Cursor<'t>) -> Result<Vec<Built>, MakeFault>
    requires nests { Nests grammar.now.maker.names.now grammar.now.depth (F.pre grammar.now.inner)
        (F.post grammar.now.inner) }
    requires same { tokens.old.names ≡ grammar.now.maker.names.now }
    ensures reads { Reads (λ all. all_seen grammar.now.maker.names.now all.items)
        (spec.parens (within grammar.now.depth)) tokens.old.input result tokens.new.input }
    ensures same { tokens.new.names ≡ grammar.now.maker.names.now }
    ensures named { IfOk result (λ all. AreNamed grammar.now.maker.names.now all.items) }
{
    tokens.open_bracket()?;
    let found = optional_arguments(grammar, tokens)?;
    tokens.close_sign(Punctuation::CloseParenthesis)?;
    Ok(found)
}

/// The items of an array after the first.
#[tactic(auto, using(zw_def_syntax::proofs::TurnLemmas::loop_ended, zw_def_syntax::proofs::TurnLemmas::loop_refused, zw_def_syntax::proofs::TurnLemmas::loop_gone_on, zw_def_syntax::proofs::TurnLemmas::loop_done))]
#[inline(never)]
pub(crate) fn more_items<
    't,
    F: Fn(Maker<'t>, &mut Cursor<'t>, usize, Within) -> Result<Read, MakeFault>,
>(
    grammar: &Grammar<'t, F>,
    tokens: &mut Cursor<'t>,
    mut found: Vec<Built>,
) -> Result<Vec<Built>, MakeFault>
    requires nests { Nests grammar.now.maker.names.now grammar.now.depth (F.pre grammar.now.inner)
        (F.post grammar.now.inner) }
    requires same { tokens.old.names ≡ grammar.now.maker.names.now }
    requires found { AreNamed grammar.now.maker.names.now found.items }
    ensures reads { Reads (λ all. all_seen grammar.now.maker.names.now all.items)
        (repeated spec.item_next (spec.one_more (within grammar.now.depth)) (all_seen grammar.now.maker.names.now found.items))
        tokens.old.input result tokens.new.input }
    ensures same { tokens.new.names ≡ grammar.now.maker.names.now }
    ensures named { IfOk result (λ all. AreNamed grammar.now.maker.names.now all.items) }
{
    'turn: for _turn in 0..tokens.left() {
        if !item_next(tokens) {
            return Ok(found);
        }
        found = one_more(grammar, tokens, found)?;
    }
    Ok(found)
}

/// `a, b` or `a, b,`.
#[tactic(auto, unfolding(zw_def_syntax::specs::Expression::items))]
#[inline(never)]
pub(crate) fn items<
    't,
    F: Fn(Maker<'t>, &mut Cursor<'t>, usize, Within) -> Result<Read, MakeFault>,
>(grammar: &Grammar<'t, F>, tokens: &mut Cursor<'t>) -> Result<Vec<Built>, MakeFault>
    requires nests { Nests grammar.now.maker.names.now grammar.now.depth (F.pre grammar.now.inner)
        (F.post grammar.now.inner) }
    requires same { tokens.old.names ≡ grammar.now.maker.names.now }
    ensures reads { Reads (λ all. all_seen grammar.now.maker.names.now all.items)
        (spec.items (within grammar.now.depth)) tokens.old.input result tokens.new.input }
    ensures same { tokens.new.names ≡ grammar.now.maker.names.now }
    ensures named { IfOk result (λ all. AreNamed grammar.now.maker.names.now all.items) }
{
    let first = first_argument(grammar, tokens)?;
    let found = more_items(grammar, tokens, first)?;
    if tokens.sign_next(Punctuation::Comma) {
        tokens.take_token();
    }
    Ok(found)
}

/// Items, or none before `]`.
pub(crate) fn optional_items<
    't,
    F: Fn(Maker<'t>, &mut Cursor<'t>, usize, Within) -> Result<Read, MakeFault>,
>(grammar: &Grammar<'t, F>, tokens: &mut Cursor<'t>) -> Result<Vec<Built>, MakeFault>
    requires nests { Nests grammar.now.maker.names.now grammar.now.depth (F.pre grammar.now.inner)
        (F.post grammar.now.inner) }
    requires same { tokens.old.names ≡ grammar.now.maker.names.now }
    ensures reads { Reads (λ all. all_seen grammar.now.maker.names.now all.items)
        (part.optional_items (within grammar.now.depth)) tokens.old.input result tokens.new.input }
    ensures same { tokens.new.names ≡ grammar.now.maker.names.now }
    ensures named { IfOk result (λ all. AreNamed grammar.now.maker.names.now all.items) }
{
    if tokens.sign_next(Punctuation::CloseBracket) {
        Ok(Vec::new(grammar.maker.alloc))
    } else {
        items(grammar, tokens)
    }
}
