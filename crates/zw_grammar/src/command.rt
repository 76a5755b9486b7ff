//! Calls without parentheses. Section numbers are those of ISO/IEC 30170.
ghost use Rattle.std.specs.Prelude.{◌≡◌, IfOk};
ghost use Rattle.zw_def_syntax.specs.Grammar as spec;
ghost use Rattle.zw_def_syntax.specs.Grammar.{within};
ghost use Rattle.zw_ast.specs.Grown.{grown_seen};
ghost use Rattle.zw_ast.specs.Named.{IsName, IsNamed};
ghost use Rattle.zw_ast.specs.Node.{name_seen};
ghost use Rattle.zw_expr.specs.Nests.{Nests};
ghost use Rattle.zw_expr.specs.Reads.{Reads};

use crate::arguments::arguments;
use zw_ast::{Built, MakeFault, Maker};
use zw_expr::{Cursor, Form, Grammar, Read, Within};

/// A call without parentheses (11.3).
#[tactic(auto, unfolding(zw_def_syntax::specs::Grammar::command))]
#[inline(never)]
pub(crate) fn command<
    't,
    F: Fn(Maker<'t>, &mut Cursor<'t>, usize, Within) -> Result<Read, MakeFault>,
>(grammar: &Grammar<'t, F>, tokens: &mut Cursor<'t>) -> Result<Built, MakeFault>
    requires nests { Nests grammar.now.maker.names.now grammar.now.depth (F.pre grammar.now.inner)
        (F.post grammar.now.inner) }
    requires same { tokens.old.names ≡ grammar.now.maker.names.now }
    ensures reads { Reads (grown_seen grammar.now.maker.names.now) (spec.command (within grammar.now.depth))
        tokens.old.input result tokens.new.input }
    ensures same { tokens.new.names ≡ grammar.now.maker.names.now }
    ensures named { IfOk result (IsNamed grammar.now.maker.names.now) }
{
    let name = tokens.take_word()?;
    let args = arguments(grammar, tokens)?;
    grammar.maker.self_call(name, args)
}

/// `super` with arguments and no parentheses (11.3.4).
#[tactic(auto, unfolding(zw_def_syntax::specs::Grammar::super_command))]
#[inline(never)]
pub(crate) fn super_command<
    't,
    F: Fn(Maker<'t>, &mut Cursor<'t>, usize, Within) -> Result<Read, MakeFault>,
>(grammar: &Grammar<'t, F>, tokens: &mut Cursor<'t>) -> Result<Built, MakeFault>
    requires nests { Nests grammar.now.maker.names.now grammar.now.depth (F.pre grammar.now.inner)
        (F.post grammar.now.inner) }
    requires same { tokens.old.names ≡ grammar.now.maker.names.now }
    ensures reads { Reads (grown_seen grammar.now.maker.names.now)
        (spec.super_command (within grammar.now.depth)) tokens.old.input result tokens.new.input }
    ensures same { tokens.new.names ≡ grammar.now.maker.names.now }
    ensures named { IfOk result (IsNamed grammar.now.maker.names.now) }
{
    tokens.take_token();
    let args = arguments(grammar, tokens)?;
    grammar.maker.super_call(args)
}

/// `r.x` with arguments and no parentheses (11.3).
#[tactic(auto, unfolding(zw_def_syntax::specs::Grammar::call_command))]
#[inline(never)]
pub(crate) fn call_command<
    't,
    F: Fn(Maker<'t>, &mut Cursor<'t>, usize, Within) -> Result<Read, MakeFault>,
>(grammar: &Grammar<'t, F>, tokens: &mut Cursor<'t>, receiver: Built) -> Result<Built, MakeFault>
    requires nests { Nests grammar.now.maker.names.now grammar.now.depth (F.pre grammar.now.inner)
        (F.post grammar.now.inner) }
    requires same { tokens.old.names ≡ grammar.now.maker.names.now }
    requires receiver { IsNamed grammar.now.maker.names.now receiver }
    ensures reads { Reads (grown_seen grammar.now.maker.names.now)
        (spec.call_command (within grammar.now.depth) (grown_seen grammar.now.maker.names.now receiver))
        tokens.old.input result tokens.new.input }
    ensures same { tokens.new.names ≡ grammar.now.maker.names.now }
    ensures named { IfOk result (IsNamed grammar.now.maker.names.now) }
{
    tokens.take_token();
    let name = tokens.take_word()?;
    let args = arguments(grammar, tokens)?;
    grammar.maker.call(receiver, name, args)
}
