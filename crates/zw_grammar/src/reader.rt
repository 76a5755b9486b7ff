//! What stands within other forms, to a depth: all recursion of the grammar goes through here.
ghost use Rattle.std.specs.Prelude.{◌≡◌, IfOk};
ghost use Rattle.zw_def_syntax.specs.Grammar as spec;
ghost use Rattle.zw_def_syntax.specs.Grammar.{within};
ghost use Rattle.zw_ast.specs.Grown.{grown_seen};
ghost use Rattle.zw_ast.specs.Named.{IsNamed};
ghost use Rattle.zw_expr.specs.Nests.{Nests, ReadsWithin, IsNamedRead, form_seen};
ghost use Rattle.zw_expr.specs.Reads.{Reads};
ghost use Rattle.zw_grammar.specs.Part.{reader_of};
ghost use Rattle.zw_grammar.specs.ReadsAs.{ReadsAs};

use crate::operation::{ternary, unary};
use crate::program::program;
use crate::statement::{inverse, line};
use crate::value::value;
use zw_ast::{Built, MakeFault, Maker, Malformed};
use zw_expr::{Cursor, Form, Grammar, Read, Within};

/// The rule of a form that stands within others.
fn rule<'t, F: Fn(Maker<'t>, &mut Cursor<'t>, usize, Within) -> Result<Read, MakeFault>>(
    grammar: &Grammar<'t, F>,
    tokens: &mut Cursor<'t>,
    form: Form,
) -> Result<Built, MakeFault>
    requires nests { Nests grammar.now.maker.names.now grammar.now.depth (F.pre grammar.now.inner)
        (F.post grammar.now.inner) }
    requires same { tokens.old.names ≡ grammar.now.maker.names.now }
    ensures reads { Reads (grown_seen grammar.now.maker.names.now) (spec.rule (within grammar.now.depth)
        (form_seen form)) tokens.old.input result tokens.new.input }
    ensures same { tokens.new.names ≡ grammar.now.maker.names.now }
    ensures named { IfOk result (IsNamed grammar.now.maker.names.now) }
{
    match form {
        Form::Line => line(grammar, tokens),
        Form::Inverse => inverse(grammar, tokens),
        Form::Value => value(grammar, tokens),
        Form::Ternary => ternary(grammar, tokens),
        Form::Unary => unary(grammar, tokens),
    }
}

/// Reads what stands within a form by its rule.
#[inline(never)]
fn read_by_rule<'t, F: Fn(Maker<'t>, &mut Cursor<'t>, usize, Within) -> Result<Read, MakeFault>>(
    grammar: &Grammar<'t, F>,
    tokens: &mut Cursor<'t>,
    what: Within,
) -> Result<Read, MakeFault>
    requires nests { Nests grammar.now.maker.names.now grammar.now.depth (F.pre grammar.now.inner)
        (F.post grammar.now.inner) }
    requires same { tokens.old.names ≡ grammar.now.maker.names.now }
    ensures reads { ReadsAs grammar.now.maker.names.now (reader_of (within grammar.now.depth)) what
        tokens.old.input result tokens.new.input }
    ensures same { tokens.new.names ≡ grammar.now.maker.names.now }
    ensures named { IsNamedRead grammar.now.maker.names.now result }
{
    match what {
        Within::Tree(form) => Ok(Read::Tree(rule(grammar, tokens, form)?)),
        Within::Program => Ok(Read::Program(program(grammar, tokens)?)),
    }
}

/// Reads what stands within a form, where forms stand in one another no deeper than `depth`.
pub(crate) fn read<'t>(
    maker: Maker<'t>,
    tokens: &mut Cursor<'t>,
    depth: usize,
    what: Within,
) -> Result<Read, MakeFault>
    requires same { tokens.old.names ≡ maker.names.now }
    ensures reads { ReadsWithin maker.entry.names.now depth what tokens.old.input result tokens.new.input }
    ensures same { tokens.new.names ≡ maker.entry.names.now }
    ensures named { IsNamedRead maker.entry.names.now result }
{
    if depth == 0 {
        return Err(MakeFault::Refused(Malformed));
    }
    let grammar = Grammar {
        maker,
        depth: depth - 1,
        inner: read,
    };
    read_by_rule(&grammar, tokens, what)
}
