//! Bodies with their clauses (ISO/IEC 30170, 11.5.2.5).
ghost use Rattle.std.specs.Prelude.{◌≡◌, ◌≤◌, IfOk, length, map, option_map};
ghost use Rattle.zw_def_syntax.specs.Compound as spec;
ghost use Rattle.zw_def_syntax.specs.Grammar.{within};
ghost use Rattle.zw_def_syntax.specs.Input.{keyword_next, repeated};
ghost use Rattle.zw_ast.specs.Grown.{grown_seen};
ghost use Rattle.zw_ast.specs.Named.{IsNameIfAny, IsNamed, greatest};
ghost use Rattle.zw_ast.specs.Node.{name_seen};
ghost use Rattle.zw_ast.specs.Part.{branch_names, branch_seen, clause_names, clause_seen, clauses_names, clauses_seen};
ghost use Rattle.zw_expr.specs.Nests.{Nests};
ghost use Rattle.zw_expr.specs.Reads.{Reads};
ghost use Rattle.zw_compound.specs.Part as part;

use crate::choice::program_after;
use crate::path::optional_paths;
use crate::separator::then_word;
use zw_ast::{Built, Clauses, MakeFault, Maker, RescueClause};
use zw_expr::{Cursor, Grammar, Read, Within};
use zw_lexer::{Keyword, Punctuation};
use zw_names::Name;

/// `=>` and a variable, where it is there.
#[tactic(auto, unfolding(zw_def_syntax::specs::Compound::rescue_variable))]
#[inline(never)]
pub(crate) fn rescue_variable<
    't,
    F: Fn(Maker<'t>, &mut Cursor<'t>, usize, Within) -> Result<Read, MakeFault>,
>(grammar: &Grammar<'t, F>, tokens: &mut Cursor<'t>) -> Result<Option<Name>, MakeFault>
    requires nests { Nests grammar.now.maker.names.now grammar.now.depth (F.pre grammar.now.inner)
        (F.post grammar.now.inner) }
    requires same { tokens.old.names ≡ grammar.now.maker.names.now }
    ensures reads { Reads (λ o. option_map (name_seen grammar.now.maker.names.now) o)
        (spec.rescue_variable (within grammar.now.depth)) tokens.old.input result tokens.new.input }
    ensures same { tokens.new.names ≡ grammar.now.maker.names.now }
    ensures named { IfOk result (λ o. IsNameIfAny grammar.now.maker.names.now o) }
{
    if !tokens.sign_next(Punctuation::Arrow) {
        return Ok(None);
    }
    tokens.take_token();
    let name = tokens.take_variable()?;
    tokens.learn(name)?;
    Ok(Some(name))
}

/// `rescue` with its paths, its variable and its statements.
#[tactic(auto, unfolding(zw_def_syntax::specs::Compound::rescue_clause))]
#[inline(never)]
pub(crate) fn rescue_clause<
    't,
    F: Fn(Maker<'t>, &mut Cursor<'t>, usize, Within) -> Result<Read, MakeFault>,
>(grammar: &Grammar<'t, F>, tokens: &mut Cursor<'t>) -> Result<RescueClause, MakeFault>
    requires nests { Nests grammar.now.maker.names.now grammar.now.depth (F.pre grammar.now.inner)
        (F.post grammar.now.inner) }
    requires same { tokens.old.names ≡ grammar.now.maker.names.now }
    ensures reads { Reads (λ r. clause_seen grammar.now.maker.names.now r)
        (spec.rescue_clause (within grammar.now.depth)) tokens.old.input result tokens.new.input }
    ensures same { tokens.new.names ≡ grammar.now.maker.names.now }
    ensures named { IfOk result (λ r. clause_names r ≤ length grammar.now.maker.names.now) }
{
    tokens.take_token();
    let paths = optional_paths(&grammar.maker, tokens)?;
    let variable = rescue_variable(grammar, tokens)?;
    then_word(tokens)?;
    let body = grammar.program(tokens)?;
    Ok(RescueClause {
        paths,
        variable,
        body,
    })
}

/// One rescue clause more.
#[tactic(auto, using(crate::proofs::NamedLemmas::clause_pushed))]
#[inline(never)]
pub(crate) fn one_more_clause<
    't,
    F: Fn(Maker<'t>, &mut Cursor<'t>, usize, Within) -> Result<Read, MakeFault>,
>(
    grammar: &Grammar<'t, F>,
    tokens: &mut Cursor<'t>,
    mut found: Vec<RescueClause>,
) -> Result<Vec<RescueClause>, MakeFault>
    requires nests { Nests grammar.now.maker.names.now grammar.now.depth (F.pre grammar.now.inner)
        (F.post grammar.now.inner) }
    requires same { tokens.old.names ≡ grammar.now.maker.names.now }
    requires found { greatest clause_names found.items ≤ length grammar.now.maker.names.now }
    ensures reads { Reads (λ all. map (clause_seen grammar.now.maker.names.now) all.items)
        (part.one_more_clause (within grammar.now.depth) (map (clause_seen grammar.now.maker.names.now) found.items))
        tokens.old.input result tokens.new.input }
    ensures same { tokens.new.names ≡ grammar.now.maker.names.now }
    ensures named { IfOk result
        (λ all. greatest clause_names all.items ≤ length grammar.now.maker.names.now) }
{
    found.push(rescue_clause(grammar, tokens)?)?;
    Ok(found)
}

/// All rescue clauses.
#[tactic(auto, using(zw_def_syntax::proofs::TurnLemmas::loop_ended, zw_def_syntax::proofs::TurnLemmas::loop_refused, zw_def_syntax::proofs::TurnLemmas::loop_gone_on, zw_def_syntax::proofs::TurnLemmas::loop_done))]
#[inline(never)]
pub(crate) fn rescue_clauses<
    't,
    F: Fn(Maker<'t>, &mut Cursor<'t>, usize, Within) -> Result<Read, MakeFault>,
>(
    grammar: &Grammar<'t, F>,
    tokens: &mut Cursor<'t>,
    mut found: Vec<RescueClause>,
) -> Result<Vec<RescueClause>, MakeFault>
    requires nests { Nests grammar.now.maker.names.now grammar.now.depth (F.pre grammar.now.inner)
        (F.post grammar.now.inner) }
    requires same { tokens.old.names ≡ grammar.now.maker.names.now }
    requires found { greatest clause_names found.items ≤ length grammar.now.maker.names.now }
    ensures reads { Reads (λ all. map (clause_seen grammar.now.maker.names.now) all.items)
        (repeated (keyword_next "rescue") (part.one_more_clause (within grammar.now.depth)) (map (clause_seen grammar.now.maker.names.now) found.items))
        tokens.old.input result tokens.new.input }
    ensures same { tokens.new.names ≡ grammar.now.maker.names.now }
    ensures named { IfOk result
        (λ all. greatest clause_names all.items ≤ length grammar.now.maker.names.now) }
{
    'turn: for _turn in 0..tokens.left() {
        if !tokens.keyword_next(Keyword::Rescue) {
            return Ok(found);
        }
        found = one_more_clause(grammar, tokens, found)?;
    }
    Ok(found)
}

/// The statements behind `else`, where a rescue clause stands before it.
pub(crate) fn else_after<
    't,
    F: Fn(Maker<'t>, &mut Cursor<'t>, usize, Within) -> Result<Read, MakeFault>,
>(
    grammar: &Grammar<'t, F>,
    tokens: &mut Cursor<'t>,
    rescues: &[RescueClause],
) -> Result<Option<Vec<Built>>, MakeFault>
    requires nests { Nests grammar.now.maker.names.now grammar.now.depth (F.pre grammar.now.inner)
        (F.post grammar.now.inner) }
    requires same { tokens.old.names ≡ grammar.now.maker.names.now }
    ensures reads { Reads (branch_seen grammar.now.maker.names.now)
        (spec.else_after (within grammar.now.depth) (map (clause_seen grammar.now.maker.names.now) rescues.now))
        tokens.old.input result tokens.new.input }
    ensures same { tokens.new.names ≡ grammar.now.maker.names.now }
    ensures named { IfOk result (λ o. branch_names o ≤ length grammar.now.maker.names.now) }
{
    if rescues.is_empty() {
        Ok(None)
    } else {
        program_after(grammar, tokens, Keyword::Else)
    }
}

/// A body with its clauses.
#[tactic(auto, unfolding(zw_def_syntax::specs::Compound::clauses))]
#[inline(never)]
pub(crate) fn clauses<
    't,
    F: Fn(Maker<'t>, &mut Cursor<'t>, usize, Within) -> Result<Read, MakeFault>,
>(grammar: &Grammar<'t, F>, tokens: &mut Cursor<'t>) -> Result<Clauses, MakeFault>
    requires nests { Nests grammar.now.maker.names.now grammar.now.depth (F.pre grammar.now.inner)
        (F.post grammar.now.inner) }
    requires same { tokens.old.names ≡ grammar.now.maker.names.now }
    ensures reads { Reads (λ s. clauses_seen grammar.now.maker.names.now s)
        (spec.clauses (within grammar.now.depth)) tokens.old.input result tokens.new.input }
    ensures same { tokens.new.names ≡ grammar.now.maker.names.now }
    ensures named { IfOk result (λ s. clauses_names s ≤ length grammar.now.maker.names.now) }
{
    let body = grammar.program(tokens)?;
    let rescues = rescue_clauses(grammar, tokens, Vec::new(grammar.maker.alloc))?;
    let other = else_after(grammar, tokens, &rescues)?;
    let ensured = program_after(grammar, tokens, Keyword::Ensure)?;
    Ok(Clauses {
        body,
        rescues,
        other,
        ensured,
    })
}

/// `begin` (11.5.2.5).
#[tactic(auto, unfolding(zw_def_syntax::specs::Compound::begin_rule))]
#[inline(never)]
pub(crate) fn begin_rule<
    't,
    F: Fn(Maker<'t>, &mut Cursor<'t>, usize, Within) -> Result<Read, MakeFault>,
>(grammar: &Grammar<'t, F>, tokens: &mut Cursor<'t>) -> Result<Built, MakeFault>
    requires nests { Nests grammar.now.maker.names.now grammar.now.depth (F.pre grammar.now.inner)
        (F.post grammar.now.inner) }
    requires same { tokens.old.names ≡ grammar.now.maker.names.now }
    ensures reads { Reads (grown_seen grammar.now.maker.names.now)
        (spec.begin_rule (within grammar.now.depth)) tokens.old.input result tokens.new.input }
    ensures same { tokens.new.names ≡ grammar.now.maker.names.now }
    ensures named { IfOk result (IsNamed grammar.now.maker.names.now) }
{
    tokens.take_token();
    let clauses = clauses(grammar, tokens)?;
    tokens.take_keyword(Keyword::End)?;
    grammar.maker.begin_form(clauses)
}
