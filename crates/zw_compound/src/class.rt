//! Classes and modules (ISO/IEC 30170, 13.1.2 and 13.2.2).
ghost use Rattle.std.specs.Prelude.{◌≡◌, ◌≤◌, IfOk, length};
ghost use Rattle.zw_def_syntax.specs.Compound as spec;
ghost use Rattle.zw_def_syntax.specs.Grammar.{within};
ghost use Rattle.zw_def_syntax.specs.Input.{apart};
ghost use Rattle.zw_ast.specs.Grown.{grown_seen, all_seen};
ghost use Rattle.zw_ast.specs.Named.{IsNamed, AreNamed};
ghost use Rattle.zw_ast.specs.Part.{superclass_names, superclass_seen};
ghost use Rattle.zw_expr.specs.Nests.{Nests};
ghost use Rattle.zw_expr.specs.Reads.{Reads};
ghost use Rattle.zw_compound.specs.Part as part;

use crate::path::constant_path;
use crate::separator::separators;
use zw_ast::{Built, MakeFault, Maker};
use zw_expr::{Cursor, Form, Grammar, Known, Read, Within};
use zw_lexer::{Keyword, Punctuation};

/// `<` and a superclass, where it is there.
#[tactic(auto, unfolding(zw_def_syntax::specs::Compound::superclass))]
#[inline(never)]
pub(crate) fn superclass<
    't,
    F: Fn(Maker<'t>, &mut Cursor<'t>, usize, Within) -> Result<Read, MakeFault>,
>(grammar: &Grammar<'t, F>, tokens: &mut Cursor<'t>) -> Result<Option<Built>, MakeFault>
    requires nests { Nests grammar.now.maker.names.now grammar.now.depth (F.pre grammar.now.inner)
        (F.post grammar.now.inner) }
    requires same { tokens.old.names ≡ grammar.now.maker.names.now }
    ensures reads { Reads (superclass_seen grammar.now.maker.names.now)
        (spec.superclass (within grammar.now.depth)) tokens.old.input result tokens.new.input }
    ensures same { tokens.new.names ≡ grammar.now.maker.names.now }
    ensures named { IfOk result (λ o. superclass_names o ≤ length grammar.now.maker.names.now) }
{
    if !tokens.sign_next(Punctuation::Less) {
        return Ok(None);
    }
    tokens.take_token();
    Ok(Some(grammar.tree(tokens, Form::Ternary)?))
}

/// A body, outside which nothing changes.
#[tactic(auto, unfolding(zw_def_syntax::specs::Input::apart))]
#[inline(never)]
pub(crate) fn body_apart<
    't,
    F: Fn(Maker<'t>, &mut Cursor<'t>, usize, Within) -> Result<Read, MakeFault>,
>(grammar: &Grammar<'t, F>, tokens: &mut Cursor<'t>) -> Result<Vec<Built>, MakeFault>
    requires nests { Nests grammar.now.maker.names.now grammar.now.depth (F.pre grammar.now.inner)
        (F.post grammar.now.inner) }
    requires same { tokens.old.names ≡ grammar.now.maker.names.now }
    ensures reads { Reads (λ all. all_seen grammar.now.maker.names.now all.items)
        (apart (within grammar.now.depth).program) tokens.old.input result tokens.new.input }
    ensures same { tokens.new.names ≡ grammar.now.maker.names.now }
    ensures named { IfOk result (λ all. AreNamed grammar.now.maker.names.now all.items) }
{
    let outside = tokens.replace_known(Known::new(grammar.maker.alloc));
    let body = grammar.program(tokens)?;
    tokens.replace_known(outside);
    Ok(body)
}

/// Line ends, a body, and `end`.
#[inline(never)]
pub(crate) fn closed_body<
    't,
    F: Fn(Maker<'t>, &mut Cursor<'t>, usize, Within) -> Result<Read, MakeFault>,
>(grammar: &Grammar<'t, F>, tokens: &mut Cursor<'t>) -> Result<Vec<Built>, MakeFault>
    requires nests { Nests grammar.now.maker.names.now grammar.now.depth (F.pre grammar.now.inner)
        (F.post grammar.now.inner) }
    requires same { tokens.old.names ≡ grammar.now.maker.names.now }
    ensures reads { Reads (λ all. all_seen grammar.now.maker.names.now all.items)
        (part.closed_body (within grammar.now.depth)) tokens.old.input result tokens.new.input }
    ensures same { tokens.new.names ≡ grammar.now.maker.names.now }
    ensures named { IfOk result (λ all. AreNamed grammar.now.maker.names.now all.items) }
{
    separators(tokens)?;
    let body = body_apart(grammar, tokens)?;
    tokens.take_keyword(Keyword::End)?;
    Ok(body)
}

/// `class` (13.2.2).
#[tactic(auto, using(crate::proofs::PartLemmas::class_by_body))]
#[inline(never)]
pub(crate) fn class_rule<
    't,
    F: Fn(Maker<'t>, &mut Cursor<'t>, usize, Within) -> Result<Read, MakeFault>,
>(grammar: &Grammar<'t, F>, tokens: &mut Cursor<'t>) -> Result<Built, MakeFault>
    requires nests { Nests grammar.now.maker.names.now grammar.now.depth (F.pre grammar.now.inner)
        (F.post grammar.now.inner) }
    requires same { tokens.old.names ≡ grammar.now.maker.names.now }
    ensures reads { Reads (grown_seen grammar.now.maker.names.now)
        (spec.class_rule (within grammar.now.depth)) tokens.old.input result tokens.new.input }
    ensures same { tokens.new.names ≡ grammar.now.maker.names.now }
    ensures named { IfOk result (IsNamed grammar.now.maker.names.now) }
{
    tokens.take_token();
    let path = constant_path(&grammar.maker, tokens)?;
    let superclass = superclass(grammar, tokens)?;
    let body = closed_body(grammar, tokens)?;
    grammar.maker.class(path, superclass, body)
}

/// `module` (13.1.2).
#[tactic(auto, using(crate::proofs::PartLemmas::module_by_body))]
#[inline(never)]
pub(crate) fn module_rule<
    't,
    F: Fn(Maker<'t>, &mut Cursor<'t>, usize, Within) -> Result<Read, MakeFault>,
>(grammar: &Grammar<'t, F>, tokens: &mut Cursor<'t>) -> Result<Built, MakeFault>
    requires nests { Nests grammar.now.maker.names.now grammar.now.depth (F.pre grammar.now.inner)
        (F.post grammar.now.inner) }
    requires same { tokens.old.names ≡ grammar.now.maker.names.now }
    ensures reads { Reads (grown_seen grammar.now.maker.names.now)
        (spec.module_rule (within grammar.now.depth)) tokens.old.input result tokens.new.input }
    ensures same { tokens.new.names ≡ grammar.now.maker.names.now }
    ensures named { IfOk result (IsNamed grammar.now.maker.names.now) }
{
    tokens.take_token();
    let path = constant_path(&grammar.maker, tokens)?;
    let body = closed_body(grammar, tokens)?;
    grammar.maker.module(path, body)
}
