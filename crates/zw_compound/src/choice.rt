//! `if`, `unless` and loops (ISO/IEC 30170, 11.5.2.2 and 11.5.2.3).
ghost use Rattle.std.specs.Prelude.{◌≡◌, ◌≤◌, IfOk, length};
ghost use Rattle.zw_def_syntax.specs.Compound as spec;
ghost use Rattle.zw_def_syntax.specs.Grammar.{within};
ghost use Rattle.zw_def_syntax.specs.Input.{keyword_next, repeated};
ghost use Rattle.zw_def_syntax.specs.Tree.{test_first};
ghost use Rattle.zw_ast.specs.Gives.{Gives};
ghost use Rattle.zw_ast.specs.Grown.{grown_seen, all_seen};
ghost use Rattle.zw_ast.specs.Named.{IsNamed, AreNamed, greatest};
ghost use Rattle.zw_ast.specs.Part.{branch_names, branch_seen};
ghost use Rattle.zw_lexer.specs.Keyword.{keyword_text};
ghost use Rattle.zw_expr.specs.Nests.{Nests};
ghost use Rattle.zw_expr.specs.Reads.{Reads};
ghost use Rattle.zw_compound.specs.Arm.{arm_names, arm_seen, arms_seen};
ghost use Rattle.zw_compound.specs.Part as part;

use crate::build::{body_or_none, chosen, until};
use crate::separator::{do_word, then_word};
use zw_ast::{Built, MakeFault, Maker, Order};
use zw_expr::{Cursor, Form, Grammar, Read, Within};
use zw_lexer::Keyword;

/// A test, and the statements where it holds.
#[derive(Drop)]
pub(crate) struct Arm {
    pub(crate) test: Built,
    pub(crate) body: Vec<Built>,
}

/// A test, `then`, and the statements behind it.
#[tactic(auto, unfolding(zw_def_syntax::specs::Compound::arm))]
#[inline(never)]
pub(crate) fn one_arm<
    't,
    F: Fn(Maker<'t>, &mut Cursor<'t>, usize, Within) -> Result<Read, MakeFault>,
>(grammar: &Grammar<'t, F>, tokens: &mut Cursor<'t>) -> Result<Arm, MakeFault>
    requires nests { Nests grammar.now.maker.names.now grammar.now.depth (F.pre grammar.now.inner)
        (F.post grammar.now.inner) }
    requires same { tokens.old.names ≡ grammar.now.maker.names.now }
    ensures reads { Reads (λ a. arm_seen grammar.now.maker.names.now a)
        (spec.arm (within grammar.now.depth)) tokens.old.input result tokens.new.input }
    ensures same { tokens.new.names ≡ grammar.now.maker.names.now }
    ensures named { IfOk result (λ a. arm_names a ≤ length grammar.now.maker.names.now) }
{
    let test = grammar.tree(tokens, Form::Line)?;
    then_word(tokens)?;
    let body = grammar.program(tokens)?;
    Ok(Arm { test, body })
}

/// What stands after one `elsif`.
#[tactic(auto, using(crate::proofs::NamedLemmas::arm_pushed))]
#[inline(never)]
pub(crate) fn one_more_arm<
    't,
    F: Fn(Maker<'t>, &mut Cursor<'t>, usize, Within) -> Result<Read, MakeFault>,
>(
    grammar: &Grammar<'t, F>,
    tokens: &mut Cursor<'t>,
    mut found: Vec<Arm>,
) -> Result<Vec<Arm>, MakeFault>
    requires nests { Nests grammar.now.maker.names.now grammar.now.depth (F.pre grammar.now.inner)
        (F.post grammar.now.inner) }
    requires same { tokens.old.names ≡ grammar.now.maker.names.now }
    requires found { greatest arm_names found.items ≤ length grammar.now.maker.names.now }
    ensures reads { Reads (λ all. arms_seen grammar.now.maker.names.now all.items)
        (part.one_more_arm (within grammar.now.depth) (arms_seen grammar.now.maker.names.now found.items))
        tokens.old.input result tokens.new.input }
    ensures same { tokens.new.names ≡ grammar.now.maker.names.now }
    ensures named { IfOk result (λ all. greatest arm_names all.items ≤ length grammar.now.maker.names.now) }
{
    tokens.take_token();
    found.push(one_arm(grammar, tokens)?)?;
    Ok(found)
}

/// What stands after each `elsif`.
#[tactic(auto, using(zw_def_syntax::proofs::TurnLemmas::loop_ended, zw_def_syntax::proofs::TurnLemmas::loop_refused, zw_def_syntax::proofs::TurnLemmas::loop_gone_on, zw_def_syntax::proofs::TurnLemmas::loop_done))]
#[inline(never)]
pub(crate) fn more_arms<
    't,
    F: Fn(Maker<'t>, &mut Cursor<'t>, usize, Within) -> Result<Read, MakeFault>,
>(
    grammar: &Grammar<'t, F>,
    tokens: &mut Cursor<'t>,
    mut found: Vec<Arm>,
) -> Result<Vec<Arm>, MakeFault>
    requires nests { Nests grammar.now.maker.names.now grammar.now.depth (F.pre grammar.now.inner)
        (F.post grammar.now.inner) }
    requires same { tokens.old.names ≡ grammar.now.maker.names.now }
    requires found { greatest arm_names found.items ≤ length grammar.now.maker.names.now }
    ensures reads { Reads (λ all. arms_seen grammar.now.maker.names.now all.items)
        (repeated (keyword_next "elsif") (part.one_more_arm (within grammar.now.depth)) (arms_seen grammar.now.maker.names.now found.items))
        tokens.old.input result tokens.new.input }
    ensures same { tokens.new.names ≡ grammar.now.maker.names.now }
    ensures named { IfOk result (λ all. greatest arm_names all.items ≤ length grammar.now.maker.names.now) }
{
    'turn: for _turn in 0..tokens.left() {
        if !tokens.keyword_next(Keyword::Elsif) {
            return Ok(found);
        }
        found = one_more_arm(grammar, tokens, found)?;
    }
    Ok(found)
}

/// The statements behind a word, where it stands here.
#[inline(never)]
pub(crate) fn program_after<
    't,
    F: Fn(Maker<'t>, &mut Cursor<'t>, usize, Within) -> Result<Read, MakeFault>,
>(
    grammar: &Grammar<'t, F>,
    tokens: &mut Cursor<'t>,
    word: Keyword,
) -> Result<Option<Vec<Built>>, MakeFault>
    requires nests { Nests grammar.now.maker.names.now grammar.now.depth (F.pre grammar.now.inner)
        (F.post grammar.now.inner) }
    requires same { tokens.old.names ≡ grammar.now.maker.names.now }
    ensures reads { Reads (branch_seen grammar.now.maker.names.now)
        (part.program_behind (within grammar.now.depth) (keyword_text word)) tokens.old.input result
        tokens.new.input }
    ensures same { tokens.new.names ≡ grammar.now.maker.names.now }
    ensures named { IfOk result (λ o. branch_names o ≤ length grammar.now.maker.names.now) }
{
    if !tokens.keyword_next(word) {
        return Ok(None);
    }
    tokens.take_token();
    Ok(Some(grammar.program(tokens)?))
}

/// `if` (11.5.2.2).
#[tactic(auto, unfolding(zw_def_syntax::specs::Compound::if_rule))]
#[inline(never)]
pub(crate) fn if_rule<
    't,
    F: Fn(Maker<'t>, &mut Cursor<'t>, usize, Within) -> Result<Read, MakeFault>,
>(grammar: &Grammar<'t, F>, tokens: &mut Cursor<'t>) -> Result<Built, MakeFault>
    requires nests { Nests grammar.now.maker.names.now grammar.now.depth (F.pre grammar.now.inner)
        (F.post grammar.now.inner) }
    requires same { tokens.old.names ≡ grammar.now.maker.names.now }
    ensures reads { Reads (grown_seen grammar.now.maker.names.now) (spec.if_rule (within grammar.now.depth))
        tokens.old.input result tokens.new.input }
    ensures same { tokens.new.names ≡ grammar.now.maker.names.now }
    ensures named { IfOk result (IsNamed grammar.now.maker.names.now) }
{
    tokens.take_token();
    let first = one_arm(grammar, tokens)?;
    let more = more_arms(grammar, tokens, Vec::new(grammar.maker.alloc))?;
    let other = program_after(grammar, tokens, Keyword::Else)?;
    tokens.take_keyword(Keyword::End)?;
    let other = body_or_none(&grammar.maker, other);
    chosen(&grammar.maker, first, more, other)
}

/// `unless`: an `if` with its bodies exchanged (11.5.2.2).
#[tactic(auto, unfolding(zw_def_syntax::specs::Compound::unless_rule))]
#[inline(never)]
pub(crate) fn unless_rule<
    't,
    F: Fn(Maker<'t>, &mut Cursor<'t>, usize, Within) -> Result<Read, MakeFault>,
>(grammar: &Grammar<'t, F>, tokens: &mut Cursor<'t>) -> Result<Built, MakeFault>
    requires nests { Nests grammar.now.maker.names.now grammar.now.depth (F.pre grammar.now.inner)
        (F.post grammar.now.inner) }
    requires same { tokens.old.names ≡ grammar.now.maker.names.now }
    ensures reads { Reads (grown_seen grammar.now.maker.names.now)
        (spec.unless_rule (within grammar.now.depth)) tokens.old.input result tokens.new.input }
    ensures same { tokens.new.names ≡ grammar.now.maker.names.now }
    ensures named { IfOk result (IsNamed grammar.now.maker.names.now) }
{
    tokens.take_token();
    let Arm { test, body } = one_arm(grammar, tokens)?;
    let other = program_after(grammar, tokens, Keyword::Else)?;
    tokens.take_keyword(Keyword::End)?;
    let other = body_or_none(&grammar.maker, other);
    grammar.maker.choice(Order::TestFirst, test, other, body)
}

/// A test, `do` or line ends, and the statements behind it.
#[inline(never)]
pub(crate) fn loop_arm<
    't,
    F: Fn(Maker<'t>, &mut Cursor<'t>, usize, Within) -> Result<Read, MakeFault>,
>(grammar: &Grammar<'t, F>, tokens: &mut Cursor<'t>) -> Result<Arm, MakeFault>
    requires nests { Nests grammar.now.maker.names.now grammar.now.depth (F.pre grammar.now.inner)
        (F.post grammar.now.inner) }
    requires same { tokens.old.names ≡ grammar.now.maker.names.now }
    ensures reads { Reads (λ a. arm_seen grammar.now.maker.names.now a)
        (part.loop_arm (within grammar.now.depth)) tokens.old.input result tokens.new.input }
    ensures same { tokens.new.names ≡ grammar.now.maker.names.now }
    ensures named { IfOk result (λ a. arm_names a ≤ length grammar.now.maker.names.now) }
{
    let test = grammar.tree(tokens, Form::Line)?;
    do_word(tokens)?;
    let body = grammar.program(tokens)?;
    Ok(Arm { test, body })
}

/// `while` (11.5.2.3).
#[tactic(auto, using(crate::proofs::PartLemmas::loop_by_arm))]
#[inline(never)]
pub(crate) fn while_rule<
    't,
    F: Fn(Maker<'t>, &mut Cursor<'t>, usize, Within) -> Result<Read, MakeFault>,
>(grammar: &Grammar<'t, F>, tokens: &mut Cursor<'t>) -> Result<Built, MakeFault>
    requires nests { Nests grammar.now.maker.names.now grammar.now.depth (F.pre grammar.now.inner)
        (F.post grammar.now.inner) }
    requires same { tokens.old.names ≡ grammar.now.maker.names.now }
    ensures reads { Reads (grown_seen grammar.now.maker.names.now)
        (spec.loop_rule (within grammar.now.depth) (spec.while_tree test_first)) tokens.old.input result
        tokens.new.input }
    ensures same { tokens.new.names ≡ grammar.now.maker.names.now }
    ensures named { IfOk result (IsNamed grammar.now.maker.names.now) }
{
    tokens.take_token();
    let arm = loop_arm(grammar, tokens)?;
    tokens.take_keyword(Keyword::End)?;
    grammar
        .maker
        .repetition(Order::TestFirst, arm.test, arm.body)
}

/// `until` (11.5.2.3).
#[tactic(auto, using(crate::proofs::PartLemmas::loop_by_arm))]
#[inline(never)]
pub(crate) fn until_rule<
    't,
    F: Fn(Maker<'t>, &mut Cursor<'t>, usize, Within) -> Result<Read, MakeFault>,
>(grammar: &Grammar<'t, F>, tokens: &mut Cursor<'t>) -> Result<Built, MakeFault>
    requires nests { Nests grammar.now.maker.names.now grammar.now.depth (F.pre grammar.now.inner)
        (F.post grammar.now.inner) }
    requires same { tokens.old.names ≡ grammar.now.maker.names.now }
    ensures reads { Reads (grown_seen grammar.now.maker.names.now)
        (spec.loop_rule (within grammar.now.depth) (spec.until_tree test_first)) tokens.old.input result
        tokens.new.input }
    ensures same { tokens.new.names ≡ grammar.now.maker.names.now }
    ensures named { IfOk result (IsNamed grammar.now.maker.names.now) }
{
    tokens.take_token();
    let arm = loop_arm(grammar, tokens)?;
    tokens.take_keyword(Keyword::End)?;
    until(&grammar.maker, Order::TestFirst, arm.test, arm.body)
}
