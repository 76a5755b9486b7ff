//! What postfixes stand on. Section numbers are those of ISO/IEC 30170.
ghost use Rattle.std.specs.Prelude.{◌≡◌, ◌≤◌, IfOk, Some, length, map, string_bytes};
ghost use Rattle.zw_def_syntax.specs.Expression as spec;
ghost use Rattle.zw_def_syntax.specs.Grammar.{within};
ghost use Rattle.zw_def_syntax.specs.Tree.{leaf};
ghost use Rattle.zw_def_syntax.specs.Input as i;
ghost use Rattle.zw_ast.specs.Gives.{Gives};
ghost use Rattle.zw_ast.specs.Grown.{grown_seen, all_seen};
ghost use Rattle.zw_ast.specs.Named.{IsName, IsNamed, AreNamed, greatest};
ghost use Rattle.zw_ast.specs.Node.{name_seen};
ghost use Rattle.zw_ast.specs.Part.{segment_seen, segment_names};
ghost use Rattle.zw_lexer.specs.Keyword.{keyword_text};
ghost use Rattle.zw_lexer.specs.Punctuation.{sign_text};
ghost use Rattle.zw_expr.specs.Nests.{Nests};
ghost use Rattle.zw_expr.specs.Reads.{Reads};
ghost use Rattle.zw_grammar.specs.Part as part;

use crate::arguments::{optional_items, parens};
use crate::sight::{middle_next, parens_next};
use crate::take::{close_text, take_middle, taken};
use std::alloc::Global;
use zw_ast::{Built, MakeFault, Maker, Malformed, Segment};
use zw_compound::compound;
use zw_expr::{Cursor, Grammar, Read, Within};
use zw_lexer::{Keyword, Punctuation, TokenKind};
use zw_names::Name;

/// `[a, b]` (11.5.5).
#[tactic(auto, unfolding(zw_def_syntax::specs::Expression::array))]
#[inline(never)]
pub(crate) fn array<
    't,
    F: Fn(Maker<'t>, &mut Cursor<'t>, usize, Within) -> Result<Read, MakeFault>,
>(grammar: &Grammar<'t, F>, tokens: &mut Cursor<'t>) -> Result<Built, MakeFault>
    requires nests { Nests grammar.now.maker.names.now grammar.now.depth (F.pre grammar.now.inner)
        (F.post grammar.now.inner) }
    requires same { tokens.old.names ≡ grammar.now.maker.names.now }
    ensures reads { Reads (grown_seen grammar.now.maker.names.now) (spec.array (within grammar.now.depth))
        tokens.old.input result tokens.new.input }
    ensures same { tokens.new.names ≡ grammar.now.maker.names.now }
    ensures named { IfOk result (IsNamed grammar.now.maker.names.now) }
{
    tokens.open_bracket()?;
    let found = optional_items(grammar, tokens)?;
    tokens.close_sign(Punctuation::CloseBracket)?;
    grammar.maker.array(found)
}

// Parentheses round one statement add nothing.
fn grouped_tree(maker: &Maker<'_>, mut all: Vec<Built>) -> Result<Built, MakeFault>
    requires { AreNamed maker.now.names.now all.items }
    ensures told { Gives (grown_seen maker.now.names.now)
        (spec.grouped_tree (all_seen maker.now.names.now all.items)) result }
    ensures named { IfOk result (IsNamed maker.now.names.now) }
{
    if all.len() == 1 {
        return Ok(all.remove(0));
    }
    maker.sequence(all)
}

/// `(program)` (11.5.3).
#[tactic(auto, unfolding(zw_def_syntax::specs::Expression::grouped))]
#[inline(never)]
pub(crate) fn grouped<
    't,
    F: Fn(Maker<'t>, &mut Cursor<'t>, usize, Within) -> Result<Read, MakeFault>,
>(grammar: &Grammar<'t, F>, tokens: &mut Cursor<'t>) -> Result<Built, MakeFault>
    requires nests { Nests grammar.now.maker.names.now grammar.now.depth (F.pre grammar.now.inner)
        (F.post grammar.now.inner) }
    requires same { tokens.old.names ≡ grammar.now.maker.names.now }
    ensures reads { Reads (grown_seen grammar.now.maker.names.now) (spec.grouped (within grammar.now.depth))
        tokens.old.input result tokens.new.input }
    ensures same { tokens.new.names ≡ grammar.now.maker.names.now }
    ensures named { IfOk result (IsNamed grammar.now.maker.names.now) }
{
    tokens.open_bracket()?;
    let found = grammar.program(tokens)?;
    tokens.close_sign(Punctuation::CloseParenthesis)?;
    grouped_tree(&grammar.maker, found)
}

// A name without parentheses: a variable where it is known.
#[tactic(auto, unfolding(zw_def_syntax::specs::Tree::node))]
fn bare_name<'t>(maker: &Maker<'t>, tokens: &Cursor<'t>, name: Name) -> Result<Built, MakeFault>
    requires same { tokens.now.names ≡ maker.now.names.now }
    requires name { IsName maker.now.names.now name }
    ensures told { Gives (grown_seen maker.now.names.now) (Some (leaf (spec.name_tree
        (name_seen maker.now.names.now name) (i.is_known (name_seen maker.now.names.now name) tokens.now.input)))) result }
    ensures named { IfOk result (IsNamed maker.now.names.now) }
{
    if tokens.is_known(name) {
        maker.local(name)
    } else if tokens.is_plain(name) {
        maker.ident(name)
    } else {
        maker.self_call(name, Vec::new(maker.alloc))
    }
}

/// A name with parentheses.
#[inline(never)]
pub(crate) fn called_by_name<
    't,
    F: Fn(Maker<'t>, &mut Cursor<'t>, usize, Within) -> Result<Read, MakeFault>,
>(grammar: &Grammar<'t, F>, tokens: &mut Cursor<'t>, name: Name) -> Result<Built, MakeFault>
    requires nests { Nests grammar.now.maker.names.now grammar.now.depth (F.pre grammar.now.inner)
        (F.post grammar.now.inner) }
    requires same { tokens.old.names ≡ grammar.now.maker.names.now }
    requires name { IsName grammar.now.maker.names.now name }
    ensures reads { Reads (grown_seen grammar.now.maker.names.now)
        (part.called_by_name (within grammar.now.depth) (name_seen grammar.now.maker.names.now name))
        tokens.old.input result tokens.new.input }
    ensures same { tokens.new.names ≡ grammar.now.maker.names.now }
    ensures named { IfOk result (IsNamed grammar.now.maker.names.now) }
{
    let args = parens(grammar, tokens)?;
    grammar.maker.self_call(name, args)
}

/// A name, with parentheses or without.
#[tactic(auto, unfolding(zw_def_syntax::specs::Expression::named))]
pub(crate) fn named<
    't,
    F: Fn(Maker<'t>, &mut Cursor<'t>, usize, Within) -> Result<Read, MakeFault>,
>(grammar: &Grammar<'t, F>, tokens: &mut Cursor<'t>, name: Name) -> Result<Built, MakeFault>
    requires nests { Nests grammar.now.maker.names.now grammar.now.depth (F.pre grammar.now.inner)
        (F.post grammar.now.inner) }
    requires same { tokens.old.names ≡ grammar.now.maker.names.now }
    requires name { IsName grammar.now.maker.names.now name }
    ensures reads { Reads (grown_seen grammar.now.maker.names.now)
        (spec.named (within grammar.now.depth) (name_seen grammar.now.maker.names.now name))
        tokens.old.input result tokens.new.input }
    ensures same { tokens.new.names ≡ grammar.now.maker.names.now }
    ensures named { IfOk result (IsNamed grammar.now.maker.names.now) }
{
    tokens.take_token();
    if parens_next(tokens) {
        called_by_name(grammar, tokens, name)
    } else {
        bare_name(&grammar.maker, tokens, name)
    }
}

/// `super` with parentheses.
#[inline(never)]
pub(crate) fn super_call<
    't,
    F: Fn(Maker<'t>, &mut Cursor<'t>, usize, Within) -> Result<Read, MakeFault>,
>(grammar: &Grammar<'t, F>, tokens: &mut Cursor<'t>) -> Result<Built, MakeFault>
    requires nests { Nests grammar.now.maker.names.now grammar.now.depth (F.pre grammar.now.inner)
        (F.post grammar.now.inner) }
    requires same { tokens.old.names ≡ grammar.now.maker.names.now }
    ensures reads { Reads (grown_seen grammar.now.maker.names.now)
        (part.super_call (within grammar.now.depth)) tokens.old.input result tokens.new.input }
    ensures same { tokens.new.names ≡ grammar.now.maker.names.now }
    ensures named { IfOk result (IsNamed grammar.now.maker.names.now) }
{
    let args = parens(grammar, tokens)?;
    grammar.maker.super_call(args)
}

/// `super` (11.3.4).
#[tactic(auto, unfolding(zw_def_syntax::specs::Expression::super_rule))]
pub(crate) fn super_rule<
    't,
    F: Fn(Maker<'t>, &mut Cursor<'t>, usize, Within) -> Result<Read, MakeFault>,
>(grammar: &Grammar<'t, F>, tokens: &mut Cursor<'t>) -> Result<Built, MakeFault>
    requires nests { Nests grammar.now.maker.names.now grammar.now.depth (F.pre grammar.now.inner)
        (F.post grammar.now.inner) }
    requires same { tokens.old.names ≡ grammar.now.maker.names.now }
    ensures reads { Reads (grown_seen grammar.now.maker.names.now)
        (spec.super_rule (within grammar.now.depth)) tokens.old.input result tokens.new.input }
    ensures same { tokens.new.names ≡ grammar.now.maker.names.now }
    ensures named { IfOk result (IsNamed grammar.now.maker.names.now) }
{
    tokens.take_token();
    if parens_next(tokens) {
        super_call(grammar, tokens)
    } else {
        grammar.maker.zsuper()
    }
}

/// `::N` (11.5.4.2).
#[tactic(auto, unfolding(zw_def_syntax::specs::Expression::top_constant))]
#[inline(never)]
pub(crate) fn top_constant<
    't,
    F: Fn(Maker<'t>, &mut Cursor<'t>, usize, Within) -> Result<Read, MakeFault>,
>(grammar: &Grammar<'t, F>, tokens: &mut Cursor<'t>) -> Result<Built, MakeFault>
    requires nests { Nests grammar.now.maker.names.now grammar.now.depth (F.pre grammar.now.inner)
        (F.post grammar.now.inner) }
    requires same { tokens.old.names ≡ grammar.now.maker.names.now }
    ensures reads { Reads (grown_seen grammar.now.maker.names.now)
        (spec.top_constant (within grammar.now.depth)) tokens.old.input result tokens.new.input }
    ensures same { tokens.new.names ≡ grammar.now.maker.names.now }
    ensures named { IfOk result (IsNamed grammar.now.maker.names.now) }
{
    tokens.take_token();
    let name = tokens.take_constant()?;
    grammar.maker.top_constant(name)
}

/// A text, and the program after it, in an interpolation.
#[tactic(auto, using(crate::proofs::NamedLemmas::segment_pushed), unfolding(zw_def_syntax::specs::Expression::segment))]
#[inline(never)]
pub(crate) fn segment<
    't,
    F: Fn(Maker<'t>, &mut Cursor<'t>, usize, Within) -> Result<Read, MakeFault>,
>(
    grammar: &Grammar<'t, F>,
    tokens: &mut Cursor<'t>,
    mut found: Vec<Segment>,
) -> Result<Vec<Segment>, MakeFault>
    requires nests { Nests grammar.now.maker.names.now grammar.now.depth (F.pre grammar.now.inner)
        (F.post grammar.now.inner) }
    requires same { tokens.old.names ≡ grammar.now.maker.names.now }
    requires found { greatest segment_names found.items ≤ length grammar.now.maker.names.now }
    ensures reads { Reads (λ all. map (segment_seen grammar.now.maker.names.now) all.items)
        (spec.segment (within grammar.now.depth) (map (segment_seen grammar.now.maker.names.now) found.items))
        tokens.old.input result tokens.new.input }
    ensures same { tokens.new.names ≡ grammar.now.maker.names.now }
    ensures named { IfOk result
        (λ all. greatest segment_names all.items ≤ length grammar.now.maker.names.now) }
{
    let text = take_middle(grammar.maker.alloc, tokens)?;
    let program = grammar.program(tokens)?;
    found.push(Segment { text, program })?;
    Ok(found)
}

/// The texts and programs of an interpolation after its first.
#[tactic(auto, using(zw_def_syntax::proofs::TurnLemmas::loop_ended, zw_def_syntax::proofs::TurnLemmas::loop_refused, zw_def_syntax::proofs::TurnLemmas::loop_gone_on, zw_def_syntax::proofs::TurnLemmas::loop_done))]
#[inline(never)]
pub(crate) fn segments<
    't,
    F: Fn(Maker<'t>, &mut Cursor<'t>, usize, Within) -> Result<Read, MakeFault>,
>(
    grammar: &Grammar<'t, F>,
    tokens: &mut Cursor<'t>,
    mut found: Vec<Segment>,
) -> Result<Vec<Segment>, MakeFault>
    requires nests { Nests grammar.now.maker.names.now grammar.now.depth (F.pre grammar.now.inner)
        (F.post grammar.now.inner) }
    requires same { tokens.old.names ≡ grammar.now.maker.names.now }
    requires found { greatest segment_names found.items ≤ length grammar.now.maker.names.now }
    ensures reads { Reads (λ all. map (segment_seen grammar.now.maker.names.now) all.items)
        (i.repeated (i.kind_is spec.is_middle 0) (spec.segment (within grammar.now.depth)) (map (segment_seen grammar.now.maker.names.now) found.items))
        tokens.old.input result tokens.new.input }
    ensures same { tokens.new.names ≡ grammar.now.maker.names.now }
    ensures named { IfOk result
        (λ all. greatest segment_names all.items ≤ length grammar.now.maker.names.now) }
{
    'turn: for _turn in 0..tokens.left() {
        if !middle_next(tokens) {
            return Ok(found);
        }
        found = segment(grammar, tokens, found)?;
    }
    Ok(found)
}

/// A text with interpolations (8.7.6.3), by its front.
#[tactic(auto, unfolding(zw_def_syntax::specs::Expression::interpolation))]
#[inline(never)]
pub(crate) fn interpolation<
    't,
    F: Fn(Maker<'t>, &mut Cursor<'t>, usize, Within) -> Result<Read, MakeFault>,
>(grammar: &Grammar<'t, F>, tokens: &mut Cursor<'t>, text: String) -> Result<Built, MakeFault>
    requires nests { Nests grammar.now.maker.names.now grammar.now.depth (F.pre grammar.now.inner)
        (F.post grammar.now.inner) }
    requires same { tokens.old.names ≡ grammar.now.maker.names.now }
    ensures reads { Reads (grown_seen grammar.now.maker.names.now)
        (spec.interpolation (within grammar.now.depth) (string_bytes text)) tokens.old.input result
        tokens.new.input }
    ensures same { tokens.new.names ≡ grammar.now.maker.names.now }
    ensures named { IfOk result (IsNamed grammar.now.maker.names.now) }
{
    tokens.open_bracket()?;
    let program = grammar.program(tokens)?;
    let mut first = Vec::new(grammar.maker.alloc);
    first.push(Segment { text, program })?;
    let found = segments(grammar, tokens, first)?;
    let last = close_text(grammar.maker.alloc, tokens)?;
    grammar.maker.interpolation(found, last)
}

/// A sign that begins a primary.
pub(crate) fn sign_primary<
    't,
    F: Fn(Maker<'t>, &mut Cursor<'t>, usize, Within) -> Result<Read, MakeFault>,
>(grammar: &Grammar<'t, F>, tokens: &mut Cursor<'t>, sign: Punctuation) -> Result<Built, MakeFault>
    requires nests { Nests grammar.now.maker.names.now grammar.now.depth (F.pre grammar.now.inner)
        (F.post grammar.now.inner) }
    requires same { tokens.old.names ≡ grammar.now.maker.names.now }
    ensures reads { Reads (grown_seen grammar.now.maker.names.now)
        (spec.sign_primary (within grammar.now.depth) (sign_text sign)) tokens.old.input result
        tokens.new.input }
    ensures same { tokens.new.names ≡ grammar.now.maker.names.now }
    ensures named { IfOk result (IsNamed grammar.now.maker.names.now) }
{
    match sign {
        Punctuation::Scope => top_constant(grammar, tokens),
        Punctuation::OpenParenthesis => grouped(grammar, tokens),
        Punctuation::OpenBracket => array(grammar, tokens),
        _ => Err(MakeFault::Refused(Malformed)),
    }
}

/// A keyword that begins a primary.
pub(crate) fn keyword_primary<
    't,
    F: Fn(Maker<'t>, &mut Cursor<'t>, usize, Within) -> Result<Read, MakeFault>,
>(grammar: &Grammar<'t, F>, tokens: &mut Cursor<'t>, word: Keyword) -> Result<Built, MakeFault>
    requires nests { Nests grammar.now.maker.names.now grammar.now.depth (F.pre grammar.now.inner)
        (F.post grammar.now.inner) }
    requires same { tokens.old.names ≡ grammar.now.maker.names.now }
    ensures reads { Reads (grown_seen grammar.now.maker.names.now)
        (spec.keyword_primary (within grammar.now.depth) (keyword_text word)) tokens.old.input result
        tokens.new.input }
    ensures same { tokens.new.names ≡ grammar.now.maker.names.now }
    ensures named { IfOk result (IsNamed grammar.now.maker.names.now) }
{
    match word {
        Keyword::Nil => taken(tokens, grammar.maker.nil()),
        Keyword::True => taken(tokens, grammar.maker.true_node()),
        Keyword::False => taken(tokens, grammar.maker.false_node()),
        Keyword::SelfWord => taken(tokens, grammar.maker.self_node()),
        Keyword::Super => super_rule(grammar, tokens),
        _ => compound(grammar, tokens, word),
    }
}

/// What postfixes stand on (11.5).
#[tactic(auto, unfolding(zw_def_syntax::specs::Expression::primary))]
#[inline(never)]
pub(crate) fn primary<
    't,
    F: Fn(Maker<'t>, &mut Cursor<'t>, usize, Within) -> Result<Read, MakeFault>,
>(grammar: &Grammar<'t, F>, tokens: &mut Cursor<'t>) -> Result<Built, MakeFault>
    requires nests { Nests grammar.now.maker.names.now grammar.now.depth (F.pre grammar.now.inner)
        (F.post grammar.now.inner) }
    requires same { tokens.old.names ≡ grammar.now.maker.names.now }
    ensures reads { Reads (grown_seen grammar.now.maker.names.now) (spec.primary (within grammar.now.depth))
        tokens.old.input result tokens.new.input }
    ensures same { tokens.new.names ≡ grammar.now.maker.names.now }
    ensures named { IfOk result (IsNamed grammar.now.maker.names.now) }
{
    let Some(kind) = tokens.kind() else {
        return Err(MakeFault::Refused(Malformed));
    };
    match kind {
        TokenKind::Integer(number) => taken(tokens, grammar.maker.integer(number.plain())),
        TokenKind::Text(text) => {
            let text = String::from_str(grammar.maker.alloc, text.as_str())?;
            taken(tokens, grammar.maker.text(text))
        }
        TokenKind::TextBegin(text) => {
            let text = String::from_str(grammar.maker.alloc, text.as_str())?;
            interpolation(grammar, tokens, text)
        }
        TokenKind::Symbol(name) => taken(tokens, grammar.maker.symbol(*name)),
        TokenKind::InstanceVariable(name) => {
            taken(tokens, grammar.maker.instance_variable(*name))
        }
        TokenKind::ClassVariable(name) => taken(tokens, grammar.maker.class_variable(*name)),
        TokenKind::Identifier(name) => named(grammar, tokens, *name),
        TokenKind::Constant(name) => taken(tokens, grammar.maker.constant(*name)),
        TokenKind::Keyword(word) => keyword_primary(grammar, tokens, *word),
        TokenKind::Sign(sign) => sign_primary(grammar, tokens, *sign),
        TokenKind::Newline | TokenKind::TextMiddle(_) | TokenKind::TextEnd(_) => {
            Err(MakeFault::Refused(Malformed))
        }
    }
}
