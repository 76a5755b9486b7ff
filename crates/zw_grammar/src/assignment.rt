//! Assignments. Section numbers are those of ISO/IEC 30170.
ghost use Rattle.std.specs.Prelude.{◌≡◌, IfOk};
ghost use Rattle.zw_def_syntax.specs.Grammar as spec;
ghost use Rattle.zw_def_syntax.specs.Grammar.{within};
ghost use Rattle.zw_ast.specs.Grown.{grown_seen};
ghost use Rattle.zw_ast.specs.Named.{IsName, IsNamed};
ghost use Rattle.zw_ast.specs.Node.{name_seen};
ghost use Rattle.zw_expr.specs.Nests.{Nests};
ghost use Rattle.zw_expr.specs.Reads.{Reads};
ghost use Rattle.zw_def_syntax.specs.Tree.{over, set_const};
ghost use Rattle.zw_grammar.specs.Part as part;
ghost use Rattle.zw_grammar.specs.Variable.{name_in, set_by};

use crate::variable::{Variable, set};
use zw_ast::{Built, MakeFault, Maker, Malformed};
use zw_expr::{Cursor, Form, Grammar, Read, Within};
use zw_lexer::TokenKind;
use zw_names::Name;

/// `=` and a value, for a constant.
#[tactic(auto, unfolding(zw_def_syntax::specs::Grammar::assigned))]
#[inline(never)]
pub(crate) fn constant_assignment<
    't,
    F: Fn(Maker<'t>, &mut Cursor<'t>, usize, Within) -> Result<Read, MakeFault>,
>(grammar: &Grammar<'t, F>, tokens: &mut Cursor<'t>, name: Name) -> Result<Built, MakeFault>
    requires nests { Nests grammar.now.maker.names.now grammar.now.depth (F.pre grammar.now.inner)
        (F.post grammar.now.inner) }
    requires same { tokens.old.names ≡ grammar.now.maker.names.now }
    requires name { IsName grammar.now.maker.names.now name }
    ensures reads { Reads (grown_seen grammar.now.maker.names.now)
        (spec.assigned (within grammar.now.depth) (over (set_const (name_seen grammar.now.maker.names.now name))))
        tokens.old.input result tokens.new.input }
    ensures same { tokens.new.names ≡ grammar.now.maker.names.now }
    ensures named { IfOk result (IsNamed grammar.now.maker.names.now) }
{
    tokens.take_token();
    let value = grammar.tree(tokens, Form::Value)?;
    grammar.maker.set_constant(name, value)
}

/// `=` and a value, for a variable.
#[tactic(auto, unfolding(zw_def_syntax::specs::Grammar::assigned))]
#[inline(never)]
pub(crate) fn variable_assignment<
    't,
    F: Fn(Maker<'t>, &mut Cursor<'t>, usize, Within) -> Result<Read, MakeFault>,
>(grammar: &Grammar<'t, F>, tokens: &mut Cursor<'t>, variable: Variable) -> Result<Built, MakeFault>
    requires nests { Nests grammar.now.maker.names.now grammar.now.depth (F.pre grammar.now.inner)
        (F.post grammar.now.inner) }
    requires same { tokens.old.names ≡ grammar.now.maker.names.now }
    requires variable { IsName grammar.now.maker.names.now (name_in variable) }
    ensures reads { Reads (grown_seen grammar.now.maker.names.now)
        (spec.assigned (within grammar.now.depth) (over (set_by grammar.now.maker.names.now variable)))
        tokens.old.input result tokens.new.input }
    ensures same { tokens.new.names ≡ grammar.now.maker.names.now }
    ensures named { IfOk result (IsNamed grammar.now.maker.names.now) }
{
    tokens.take_token();
    let value = grammar.tree(tokens, Form::Value)?;
    set(&grammar.maker, variable, value)
}

/// A local variable, `=` and a value. It is known in its value.
#[inline(never)]
pub(crate) fn local_assignment<
    't,
    F: Fn(Maker<'t>, &mut Cursor<'t>, usize, Within) -> Result<Read, MakeFault>,
>(grammar: &Grammar<'t, F>, tokens: &mut Cursor<'t>, name: Name) -> Result<Built, MakeFault>
    requires nests { Nests grammar.now.maker.names.now grammar.now.depth (F.pre grammar.now.inner)
        (F.post grammar.now.inner) }
    requires same { tokens.old.names ≡ grammar.now.maker.names.now }
    requires name { IsName grammar.now.maker.names.now name }
    ensures reads { Reads (grown_seen grammar.now.maker.names.now)
        (part.local_assignment (within grammar.now.depth) (name_seen grammar.now.maker.names.now name)) tokens.old.input result tokens.new.input }
    ensures same { tokens.new.names ≡ grammar.now.maker.names.now }
    ensures named { IfOk result (IsNamed grammar.now.maker.names.now) }
{
    tokens.learn(name)?;
    variable_assignment(grammar, tokens, Variable::Local(name))
}

/// A target of one token, which comes before its value (11.4.2.2).
#[tactic(auto, unfolding(zw_def_syntax::specs::Grammar::assignment))]
pub(crate) fn assignment<
    't,
    F: Fn(Maker<'t>, &mut Cursor<'t>, usize, Within) -> Result<Read, MakeFault>,
>(grammar: &Grammar<'t, F>, tokens: &mut Cursor<'t>) -> Result<Built, MakeFault>
    requires nests { Nests grammar.now.maker.names.now grammar.now.depth (F.pre grammar.now.inner)
        (F.post grammar.now.inner) }
    requires same { tokens.old.names ≡ grammar.now.maker.names.now }
    ensures reads { Reads (grown_seen grammar.now.maker.names.now)
        (spec.assignment (within grammar.now.depth)) tokens.old.input result tokens.new.input }
    ensures same { tokens.new.names ≡ grammar.now.maker.names.now }
    ensures named { IfOk result (IsNamed grammar.now.maker.names.now) }
{
    let Some(kind) = tokens.kind() else {
        return Err(MakeFault::Refused(Malformed));
    };
    tokens.take_token();
    match kind {
        TokenKind::Identifier(name) => local_assignment(grammar, tokens, *name),
        TokenKind::InstanceVariable(name) => {
            variable_assignment(grammar, tokens, Variable::Instance(*name))
        }
        TokenKind::ClassVariable(name) => {
            variable_assignment(grammar, tokens, Variable::Class(*name))
        }
        TokenKind::Constant(name) => constant_assignment(grammar, tokens, *name),
        _ => Err(MakeFault::Refused(Malformed)),
    }
}

/// `b::N = e` (11.4.2.2).
#[tactic(auto, unfolding(zw_def_syntax::specs::Grammar::scoped_assignment, zw_def_syntax::specs::Grammar::assigned))]
#[inline(never)]
pub(crate) fn scoped_assignment<
    't,
    F: Fn(Maker<'t>, &mut Cursor<'t>, usize, Within) -> Result<Read, MakeFault>,
>(grammar: &Grammar<'t, F>, tokens: &mut Cursor<'t>, base: Built) -> Result<Built, MakeFault>
    requires nests { Nests grammar.now.maker.names.now grammar.now.depth (F.pre grammar.now.inner)
        (F.post grammar.now.inner) }
    requires same { tokens.old.names ≡ grammar.now.maker.names.now }
    requires base { IsNamed grammar.now.maker.names.now base }
    ensures reads { Reads (grown_seen grammar.now.maker.names.now)
        (spec.scoped_assignment (within grammar.now.depth) (grown_seen grammar.now.maker.names.now base))
        tokens.old.input result tokens.new.input }
    ensures same { tokens.new.names ≡ grammar.now.maker.names.now }
    ensures named { IfOk result (IsNamed grammar.now.maker.names.now) }
{
    tokens.take_token();
    let name = tokens.take_constant()?;
    tokens.take_token();
    let value = grammar.tree(tokens, Form::Value)?;
    grammar.maker.set_scoped(base, name, value)
}

/// `r.x = e` (11.4.2.2).
#[tactic(auto, unfolding(zw_def_syntax::specs::Grammar::attribute_assignment, zw_def_syntax::specs::Grammar::assigned))]
#[inline(never)]
pub(crate) fn attribute_assignment<
    't,
    F: Fn(Maker<'t>, &mut Cursor<'t>, usize, Within) -> Result<Read, MakeFault>,
>(grammar: &Grammar<'t, F>, tokens: &mut Cursor<'t>, receiver: Built) -> Result<Built, MakeFault>
    requires nests { Nests grammar.now.maker.names.now grammar.now.depth (F.pre grammar.now.inner)
        (F.post grammar.now.inner) }
    requires same { tokens.old.names ≡ grammar.now.maker.names.now }
    requires receiver { IsNamed grammar.now.maker.names.now receiver }
    ensures reads { Reads (grown_seen grammar.now.maker.names.now)
        (spec.attribute_assignment (within grammar.now.depth) (grown_seen grammar.now.maker.names.now receiver))
        tokens.old.input result tokens.new.input }
    ensures same { tokens.new.names ≡ grammar.now.maker.names.now }
    ensures named { IfOk result (IsNamed grammar.now.maker.names.now) }
{
    tokens.take_token();
    let name = tokens.take_word()?;
    tokens.take_token();
    let value = grammar.tree(tokens, Form::Value)?;
    grammar.maker.set_attribute(receiver, name, value)
}
