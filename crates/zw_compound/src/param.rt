//! Parameters (ISO/IEC 30170, 13.3.2).
ghost use Rattle.std.specs.Prelude.{◌≡◌, ◌≤◌, List, IfOk, length};
ghost use Rattle.zw_def.specs.Text.{Text};
ghost use Rattle.zw_def_syntax.specs.Compound as spec;
ghost use Rattle.zw_def_syntax.specs.Grammar.{within};
ghost use Rattle.zw_def_syntax.specs.Input.{repeated, sign_next};
ghost use Rattle.zw_ast.specs.Gives.{Gives};
ghost use Rattle.zw_ast.specs.Grown.{grown_seen};
ghost use Rattle.zw_ast.specs.Named.{IsName, IsNamed};
ghost use Rattle.zw_ast.specs.Node.{name_seen};
ghost use Rattle.zw_ast.specs.Part.{params_names, params_seen};
ghost use Rattle.zw_expr.specs.Nests.{Nests};
ghost use Rattle.zw_expr.specs.Reads.{Reads};
ghost use Rattle.zw_compound.specs.Part as part;

use crate::build::{required_after, with_default};
use std::alloc::Global;
use zw_ast::{MakeFault, Maker, Params};
use zw_expr::{Cursor, Form, Grammar, Read, Within};
use zw_lexer::{Punctuation, TokenKind};
use zw_names::Name;

/// `=` and a default.
#[inline(never)]
pub(crate) fn default_of<
    't,
    F: Fn(Maker<'t>, &mut Cursor<'t>, usize, Within) -> Result<Read, MakeFault>,
>(
    grammar: &Grammar<'t, F>,
    tokens: &mut Cursor<'t>,
    params: Params,
    name: Name,
) -> Result<Params, MakeFault>
    requires nests { Nests grammar.now.maker.names.now grammar.now.depth (F.pre grammar.now.inner)
        (F.post grammar.now.inner) }
    requires same { tokens.old.names ≡ grammar.now.maker.names.now }
    requires params { params_names params ≤ length grammar.now.maker.names.now }
    requires name { IsName grammar.now.maker.names.now name }
    ensures reads { Reads (λ p. params_seen grammar.now.maker.names.now p)
        (part.default_of (within grammar.now.depth) (params_seen grammar.now.maker.names.now params) (name_seen grammar.now.maker.names.now name))
        tokens.old.input result tokens.new.input }
    ensures same { tokens.new.names ≡ grammar.now.maker.names.now }
    ensures named { IfOk result (λ p. params_names p ≤ length grammar.now.maker.names.now) }
{
    tokens.take_token();
    let value = grammar.tree(tokens, Form::Ternary)?;
    Ok(with_default(&grammar.maker, params, name, value)?)
}

/// A parameter, which is known from its name on.
#[tactic(auto, unfolding(zw_def_syntax::specs::Compound::param))]
#[inline(never)]
pub(crate) fn param<
    't,
    F: Fn(Maker<'t>, &mut Cursor<'t>, usize, Within) -> Result<Read, MakeFault>,
>(grammar: &Grammar<'t, F>, tokens: &mut Cursor<'t>, params: Params) -> Result<Params, MakeFault>
    requires nests { Nests grammar.now.maker.names.now grammar.now.depth (F.pre grammar.now.inner)
        (F.post grammar.now.inner) }
    requires same { tokens.old.names ≡ grammar.now.maker.names.now }
    requires params { params_names params ≤ length grammar.now.maker.names.now }
    ensures reads { Reads (λ p. params_seen grammar.now.maker.names.now p)
        (spec.param (within grammar.now.depth) (params_seen grammar.now.maker.names.now params))
        tokens.old.input result tokens.new.input }
    ensures same { tokens.new.names ≡ grammar.now.maker.names.now }
    ensures named { IfOk result (λ p. params_names p ≤ length grammar.now.maker.names.now) }
{
    let name = tokens.take_variable()?;
    tokens.learn(name)?;
    if tokens.sign_next(Punctuation::Assign) {
        default_of(grammar, tokens, params, name)
    } else {
        required_after(&grammar.maker, params, name)
    }
}

/// `,` and a parameter.
pub(crate) fn one_more_param<
    't,
    F: Fn(Maker<'t>, &mut Cursor<'t>, usize, Within) -> Result<Read, MakeFault>,
>(grammar: &Grammar<'t, F>, tokens: &mut Cursor<'t>, params: Params) -> Result<Params, MakeFault>
    requires nests { Nests grammar.now.maker.names.now grammar.now.depth (F.pre grammar.now.inner)
        (F.post grammar.now.inner) }
    requires same { tokens.old.names ≡ grammar.now.maker.names.now }
    requires params { params_names params ≤ length grammar.now.maker.names.now }
    ensures reads { Reads (λ p. params_seen grammar.now.maker.names.now p)
        (part.one_more_param (within grammar.now.depth) (params_seen grammar.now.maker.names.now params))
        tokens.old.input result tokens.new.input }
    ensures same { tokens.new.names ≡ grammar.now.maker.names.now }
    ensures named { IfOk result (λ p. params_names p ≤ length grammar.now.maker.names.now) }
{
    tokens.take_token();
    param(grammar, tokens, params)
}

/// The parameters after the first.
#[tactic(auto, using(zw_def_syntax::proofs::TurnLemmas::loop_ended, zw_def_syntax::proofs::TurnLemmas::loop_refused, zw_def_syntax::proofs::TurnLemmas::loop_gone_on, zw_def_syntax::proofs::TurnLemmas::loop_done))]
#[inline(never)]
pub(crate) fn more_params<
    't,
    F: Fn(Maker<'t>, &mut Cursor<'t>, usize, Within) -> Result<Read, MakeFault>,
>(
    grammar: &Grammar<'t, F>,
    tokens: &mut Cursor<'t>,
    mut params: Params,
) -> Result<Params, MakeFault>
    requires nests { Nests grammar.now.maker.names.now grammar.now.depth (F.pre grammar.now.inner)
        (F.post grammar.now.inner) }
    requires same { tokens.old.names ≡ grammar.now.maker.names.now }
    requires params { params_names params ≤ length grammar.now.maker.names.now }
    ensures reads { Reads (λ p. params_seen grammar.now.maker.names.now p)
        (repeated (sign_next ",") (part.one_more_param (within grammar.now.depth)) (params_seen grammar.now.maker.names.now params))
        tokens.old.input result tokens.new.input }
    ensures same { tokens.new.names ≡ grammar.now.maker.names.now }
    ensures named { IfOk result (λ p. params_names p ≤ length grammar.now.maker.names.now) }
{
    'turn: for _turn in 0..tokens.left() {
        if !tokens.sign_next(Punctuation::Comma) {
            return Ok(params);
        }
        params = one_more_param(grammar, tokens, params)?;
    }
    Ok(params)
}

fn no_params(alloc: Global) -> Params
    ensures told { (names : List Text) → params_seen names result ≡ spec.no_params }
    ensures named { params_names result ≡ 0 }
{
    Params {
        required: Vec::new(alloc),
        optional: Vec::new(alloc),
    }
}

/// Parameters with `,` between them.
#[tactic(auto, unfolding(zw_def_syntax::specs::Compound::plist))]
#[inline(never)]
pub(crate) fn plist<
    't,
    F: Fn(Maker<'t>, &mut Cursor<'t>, usize, Within) -> Result<Read, MakeFault>,
>(grammar: &Grammar<'t, F>, tokens: &mut Cursor<'t>) -> Result<Params, MakeFault>
    requires nests { Nests grammar.now.maker.names.now grammar.now.depth (F.pre grammar.now.inner)
        (F.post grammar.now.inner) }
    requires same { tokens.old.names ≡ grammar.now.maker.names.now }
    ensures reads { Reads (λ p. params_seen grammar.now.maker.names.now p)
        (spec.plist (within grammar.now.depth)) tokens.old.input result tokens.new.input }
    ensures same { tokens.new.names ≡ grammar.now.maker.names.now }
    ensures named { IfOk result (λ p. params_names p ≤ length grammar.now.maker.names.now) }
{
    let first = param(grammar, tokens, no_params(grammar.maker.alloc))?;
    more_params(grammar, tokens, first)
}

/// Whether a parameter follows.
fn param_next(tokens: &Cursor<'_>) -> bool
    ensures { result ≡ spec.param_next tokens.now.input }
{
    match tokens.kind() {
        Some(TokenKind::Identifier(name)) => tokens.is_plain(*name),
        _ => false,
    }
}

/// Parameters, where one follows.
pub(crate) fn optional_plist<
    't,
    F: Fn(Maker<'t>, &mut Cursor<'t>, usize, Within) -> Result<Read, MakeFault>,
>(grammar: &Grammar<'t, F>, tokens: &mut Cursor<'t>) -> Result<Params, MakeFault>
    requires nests { Nests grammar.now.maker.names.now grammar.now.depth (F.pre grammar.now.inner)
        (F.post grammar.now.inner) }
    requires same { tokens.old.names ≡ grammar.now.maker.names.now }
    ensures reads { Reads (λ p. params_seen grammar.now.maker.names.now p)
        (part.optional_plist (within grammar.now.depth)) tokens.old.input result tokens.new.input }
    ensures same { tokens.new.names ≡ grammar.now.maker.names.now }
    ensures named { IfOk result (λ p. params_names p ≤ length grammar.now.maker.names.now) }
{
    if param_next(tokens) {
        plist(grammar, tokens)
    } else {
        Ok(no_params(grammar.maker.alloc))
    }
}

/// Parameters in parentheses.
#[inline(never)]
pub(crate) fn params_in_parens<
    't,
    F: Fn(Maker<'t>, &mut Cursor<'t>, usize, Within) -> Result<Read, MakeFault>,
>(grammar: &Grammar<'t, F>, tokens: &mut Cursor<'t>) -> Result<Params, MakeFault>
    requires nests { Nests grammar.now.maker.names.now grammar.now.depth (F.pre grammar.now.inner)
        (F.post grammar.now.inner) }
    requires same { tokens.old.names ≡ grammar.now.maker.names.now }
    ensures reads { Reads (λ p. params_seen grammar.now.maker.names.now p)
        (part.params_in_parens (within grammar.now.depth)) tokens.old.input result tokens.new.input }
    ensures same { tokens.new.names ≡ grammar.now.maker.names.now }
    ensures named { IfOk result (λ p. params_names p ≤ length grammar.now.maker.names.now) }
{
    tokens.open_bracket()?;
    let params = optional_plist(grammar, tokens)?;
    tokens.close_sign(Punctuation::CloseParenthesis)?;
    Ok(params)
}

/// The parameters of a method.
#[tactic(auto, unfolding(zw_def_syntax::specs::Compound::optional_params))]
pub(crate) fn optional_params<
    't,
    F: Fn(Maker<'t>, &mut Cursor<'t>, usize, Within) -> Result<Read, MakeFault>,
>(grammar: &Grammar<'t, F>, tokens: &mut Cursor<'t>) -> Result<Params, MakeFault>
    requires nests { Nests grammar.now.maker.names.now grammar.now.depth (F.pre grammar.now.inner)
        (F.post grammar.now.inner) }
    requires same { tokens.old.names ≡ grammar.now.maker.names.now }
    ensures reads { Reads (λ p. params_seen grammar.now.maker.names.now p)
        (spec.optional_params (within grammar.now.depth)) tokens.old.input result tokens.new.input }
    ensures same { tokens.new.names ≡ grammar.now.maker.names.now }
    ensures named { IfOk result (λ p. params_names p ≤ length grammar.now.maker.names.now) }
{
    if tokens.sign_next(Punctuation::OpenParenthesis) {
        params_in_parens(grammar, tokens)
    } else {
        optional_plist(grammar, tokens)
    }
}
