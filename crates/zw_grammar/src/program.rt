//! Programs. Section numbers are those of ISO/IEC 30170.
ghost use Rattle.std.specs.Prelude.{◌≡◌, IfOk};
ghost use Rattle.zw_def_syntax.specs.Grammar as spec;
ghost use Rattle.zw_def_syntax.specs.Grammar.{within};
ghost use Rattle.zw_ast.specs.Grown.{grown_seen};
ghost use Rattle.zw_ast.specs.Named.{IsName, IsNamed};
ghost use Rattle.zw_ast.specs.Node.{name_seen};
ghost use Rattle.zw_expr.specs.Nests.{Nests};
ghost use Rattle.zw_expr.specs.Reads.{Reads};
ghost use Rattle.zw_grammar.specs.Part as part;
ghost use Rattle.zw_def_syntax.specs.Compound.{separator_next};
ghost use Rattle.zw_def_syntax.specs.Input.{repeated};
ghost use Rattle.zw_ast.specs.Grown.{all_seen};
ghost use Rattle.zw_ast.specs.Named.{AreNamed};

use crate::ahead::program_ends;
use crate::statement::statement;
use zw_ast::{Built, MakeFault, Maker};
use zw_compound::{separator_next, skip_separators};
use zw_expr::{Cursor, Form, Grammar, Read, Within};

/// A statement more.
#[tactic(auto, using(crate::proofs::NamedLemmas::named_pushed))]
#[inline(never)]
pub(crate) fn with_statement<
    't,
    F: Fn(Maker<'t>, &mut Cursor<'t>, usize, Within) -> Result<Read, MakeFault>,
>(
    grammar: &Grammar<'t, F>,
    tokens: &mut Cursor<'t>,
    mut found: Vec<Built>,
) -> Result<Vec<Built>, MakeFault>
    requires nests { Nests grammar.now.maker.names.now grammar.now.depth (F.pre grammar.now.inner)
        (F.post grammar.now.inner) }
    requires same { tokens.old.names ≡ grammar.now.maker.names.now }
    requires found { AreNamed grammar.now.maker.names.now found.items }
    ensures reads { Reads (λ all. all_seen grammar.now.maker.names.now all.items)
        (part.with_statement (within grammar.now.depth) (all_seen grammar.now.maker.names.now found.items))
        tokens.old.input result tokens.new.input }
    ensures same { tokens.new.names ≡ grammar.now.maker.names.now }
    ensures named { IfOk result (λ all. AreNamed grammar.now.maker.names.now all.items) }
{
    found.push(statement(grammar, tokens)?)?;
    Ok(found)
}

/// A statement more, where one follows the separators.
#[tactic(auto, unfolding(zw_def_syntax::specs::Grammar::separated))]
pub(crate) fn separated<
    't,
    F: Fn(Maker<'t>, &mut Cursor<'t>, usize, Within) -> Result<Read, MakeFault>,
>(
    grammar: &Grammar<'t, F>,
    tokens: &mut Cursor<'t>,
    found: Vec<Built>,
) -> Result<Vec<Built>, MakeFault>
    requires nests { Nests grammar.now.maker.names.now grammar.now.depth (F.pre grammar.now.inner)
        (F.post grammar.now.inner) }
    requires same { tokens.old.names ≡ grammar.now.maker.names.now }
    requires found { AreNamed grammar.now.maker.names.now found.items }
    ensures reads { Reads (λ all. all_seen grammar.now.maker.names.now all.items)
        (spec.separated (within grammar.now.depth) (all_seen grammar.now.maker.names.now found.items))
        tokens.old.input result tokens.new.input }
    ensures same { tokens.new.names ≡ grammar.now.maker.names.now }
    ensures named { IfOk result (λ all. AreNamed grammar.now.maker.names.now all.items) }
{
    skip_separators(tokens);
    if program_ends(tokens) {
        Ok(found)
    } else {
        with_statement(grammar, tokens, found)
    }
}

/// The statements after the first.
#[tactic(auto, using(zw_def_syntax::proofs::TurnLemmas::loop_ended, zw_def_syntax::proofs::TurnLemmas::loop_refused, zw_def_syntax::proofs::TurnLemmas::loop_gone_on, zw_def_syntax::proofs::TurnLemmas::loop_done))]
#[inline(never)]
pub(crate) fn more_statements<
    't,
    F: Fn(Maker<'t>, &mut Cursor<'t>, usize, Within) -> Result<Read, MakeFault>,
>(
    grammar: &Grammar<'t, F>,
    tokens: &mut Cursor<'t>,
    mut found: Vec<Built>,
) -> Result<Vec<Built>, MakeFault>
    requires nests { Nests grammar.now.maker.names.now grammar.now.depth (F.pre grammar.now.inner)
        (F.post grammar.now.inner) }
    requires same { tokens.old.names ≡ grammar.now.maker.names.now }
    requires found { AreNamed grammar.now.maker.names.now found.items }
    ensures reads { Reads (λ all. all_seen grammar.now.maker.names.now all.items)
        (repeated separator_next (spec.separated (within grammar.now.depth)) (all_seen grammar.now.maker.names.now found.items))
        tokens.old.input result tokens.new.input }
    ensures same { tokens.new.names ≡ grammar.now.maker.names.now }
    ensures named { IfOk result (λ all. AreNamed grammar.now.maker.names.now all.items) }
{
    'turn: for _turn in 0..tokens.left() {
        if !separator_next(tokens) {
            return Ok(found);
        }
        found = separated(grammar, tokens, found)?;
    }
    Ok(found)
}

/// A program (10).
#[tactic(auto, unfolding(zw_def_syntax::specs::Grammar::program))]
#[inline(never)]
pub(crate) fn program<
    't,
    F: Fn(Maker<'t>, &mut Cursor<'t>, usize, Within) -> Result<Read, MakeFault>,
>(grammar: &Grammar<'t, F>, tokens: &mut Cursor<'t>) -> Result<Vec<Built>, MakeFault>
    requires nests { Nests grammar.now.maker.names.now grammar.now.depth (F.pre grammar.now.inner)
        (F.post grammar.now.inner) }
    requires same { tokens.old.names ≡ grammar.now.maker.names.now }
    ensures reads { Reads (λ all. all_seen grammar.now.maker.names.now all.items)
        (spec.program (within grammar.now.depth)) tokens.old.input result tokens.new.input }
    ensures same { tokens.new.names ≡ grammar.now.maker.names.now }
    ensures named { IfOk result (λ all. AreNamed grammar.now.maker.names.now all.items) }
{
    let first = separated(grammar, tokens, Vec::new(grammar.maker.alloc))?;
    more_statements(grammar, tokens, first)
}
