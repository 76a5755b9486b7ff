//! Paths of constants (ISO/IEC 30170, 11.5.4.2 and 13.2.2).
ghost use Rattle.std.specs.Prelude.{◌≡◌, ◌≤◌, List, IfOk, Some, length};
ghost use Rattle.zw_def.specs.Text.{Text};
ghost use Rattle.zw_def_syntax.specs.Compound as spec;
ghost use Rattle.zw_def_syntax.specs.Input.{is_constant, kind_is, repeated, sign_next};
ghost use Rattle.zw_ast.specs.Grown.{grown_seen, all_seen};
ghost use Rattle.zw_ast.specs.Named.{IsName, IsNamed, AreNamed, base_names};
ghost use Rattle.zw_ast.specs.Node.{base_seen, name_seen};
ghost use Rattle.zw_ast.specs.Part.{path_names, path_seen};
ghost use Rattle.zw_expr.specs.Reads.{Reads};
ghost use Rattle.zw_compound.specs.Part as part;

use zw_ast::{Base, Built, ConstantPath, Grown, MakeFault, Maker, Node};
use zw_expr::Cursor;
use zw_lexer::{Punctuation, TokenKind};
use zw_names::Name;

// A constant of what a node gives.
#[inline(never)]
fn inside(base: Built, name: Name) -> ConstantPath
    ensures told { (names : List Text) → path_seen names result
        ≡ part.path_inside (grown_seen names base) (name_seen names name) }
    ensures named { (names : List Text) → IsNamed names base → IsName names name
        → path_names result ≤ length names }
{
    ConstantPath {
        base: Grown {
            form: Base::Within(base.form),
            height: base.height,
        },
        name,
    }
}

/// `::N` behind a path.
#[tactic(auto, unfolding(zw_def_syntax::specs::Compound::longer_path))]
#[inline(never)]
pub(crate) fn longer_path<'t>(
    maker: &Maker<'t>,
    tokens: &mut Cursor<'t>,
    path: ConstantPath,
) -> Result<ConstantPath, MakeFault>
    requires same { tokens.old.names ≡ maker.now.names.now }
    requires path { path_names path ≤ length maker.now.names.now }
    ensures reads { Reads (λ p. path_seen maker.now.names.now p)
        (spec.longer_path (path_seen maker.now.names.now path)) tokens.old.input result tokens.new.input }
    ensures same { tokens.new.names ≡ maker.now.names.now }
    ensures named { IfOk result (λ p. path_names p ≤ length maker.now.names.now) }
{
    tokens.take_token();
    let base = maker.path(path)?;
    let name = tokens.take_constant()?;
    Ok(inside(base, name))
}

/// What goes on with a path.
#[tactic(auto, using(zw_def_syntax::proofs::TurnLemmas::loop_ended, zw_def_syntax::proofs::TurnLemmas::loop_refused, zw_def_syntax::proofs::TurnLemmas::loop_gone_on, zw_def_syntax::proofs::TurnLemmas::loop_done))]
#[inline(never)]
pub(crate) fn longer_paths<'t>(
    maker: &Maker<'t>,
    tokens: &mut Cursor<'t>,
    mut path: ConstantPath,
) -> Result<ConstantPath, MakeFault>
    requires same { tokens.old.names ≡ maker.now.names.now }
    requires path { path_names path ≤ length maker.now.names.now }
    ensures reads { Reads (λ p. path_seen maker.now.names.now p)
        (repeated (sign_next "::") spec.longer_path (path_seen maker.now.names.now path)) tokens.old.input
        result tokens.new.input }
    ensures same { tokens.new.names ≡ maker.now.names.now }
    ensures named { IfOk result (λ p. path_names p ≤ length maker.now.names.now) }
{
    'turn: for _turn in 0..tokens.left() {
        if !tokens.sign_next(Punctuation::Scope) {
            return Ok(path);
        }
        path = longer_path(maker, tokens, path)?;
    }
    Ok(path)
}

// `::` before the first constant, where it is there.
fn first_base(tokens: &mut Cursor<'_>) -> Base<Node>
    ensures told { part.first_base tokens.old.input
        ≡ Some (base_seen tokens.old.names result, tokens.new.input) }
    ensures names { tokens.new.names ≡ tokens.old.names }
    ensures named { base_names result ≡ 0 }
{
    if tokens.sign_next(Punctuation::Scope) {
        tokens.take_token();
        Base::Topmost
    } else {
        Base::Innermost
    }
}

/// The first constant of a path.
#[inline(never)]
pub(crate) fn first_path<'t>(
    maker: &Maker<'t>,
    tokens: &mut Cursor<'t>,
) -> Result<ConstantPath, MakeFault>
    requires same { tokens.old.names ≡ maker.now.names.now }
    ensures reads { Reads (λ p. path_seen maker.now.names.now p) (part.first_path) tokens.old.input result
        tokens.new.input }
    ensures same { tokens.new.names ≡ maker.now.names.now }
    ensures named { IfOk result (λ p. path_names p ≤ length maker.now.names.now) }
{
    let form = first_base(tokens);
    let name = tokens.take_constant()?;
    Ok(ConstantPath {
        base: Grown { form, height: 0 },
        name,
    })
}

/// The path of a class or module.
#[tactic(auto, unfolding(zw_def_syntax::specs::Compound::cpath))]
#[inline(never)]
pub(crate) fn constant_path<'t>(
    maker: &Maker<'t>,
    tokens: &mut Cursor<'t>,
) -> Result<ConstantPath, MakeFault>
    requires same { tokens.old.names ≡ maker.now.names.now }
    ensures reads { Reads (λ p. path_seen maker.now.names.now p) (spec.cpath) tokens.old.input result
        tokens.new.input }
    ensures same { tokens.new.names ≡ maker.now.names.now }
    ensures named { IfOk result (λ p. path_names p ≤ length maker.now.names.now) }
{
    let first = first_path(maker, tokens)?;
    longer_paths(maker, tokens, first)
}

/// A path, as a node.
#[tactic(auto, unfolding(zw_def_syntax::specs::Compound::path))]
#[inline(never)]
pub(crate) fn path<'t>(maker: &Maker<'t>, tokens: &mut Cursor<'t>) -> Result<Built, MakeFault>
    requires same { tokens.old.names ≡ maker.now.names.now }
    ensures reads { Reads (grown_seen maker.now.names.now) (spec.path) tokens.old.input result
        tokens.new.input }
    ensures same { tokens.new.names ≡ maker.now.names.now }
    ensures named { IfOk result (IsNamed maker.now.names.now) }
{
    let path = constant_path(maker, tokens)?;
    maker.path(path)
}

fn constant_next(tokens: &Cursor<'_>) -> bool
    ensures { result ≡ kind_is is_constant 0 tokens.now.input }
{
    match tokens.kind() {
        Some(kind) => matches!(kind, TokenKind::Constant(_)),
        None => false,
    }
}

/// Whether a path follows.
pub(crate) fn path_next(tokens: &Cursor<'_>) -> bool
    ensures { result ≡ spec.path_next tokens.now.input }
{
    tokens.sign_next(Punctuation::Scope) || constant_next(tokens)
}

/// One path more.
#[tactic(auto, using(crate::proofs::NamedLemmas::named_pushed))]
#[inline(never)]
pub(crate) fn one_more_path<'t>(
    maker: &Maker<'t>,
    tokens: &mut Cursor<'t>,
    mut found: Vec<Built>,
) -> Result<Vec<Built>, MakeFault>
    requires same { tokens.old.names ≡ maker.now.names.now }
    requires found { AreNamed maker.now.names.now found.items }
    ensures reads { Reads (λ all. all_seen maker.now.names.now all.items)
        (part.one_more_path (all_seen maker.now.names.now found.items)) tokens.old.input result
        tokens.new.input }
    ensures same { tokens.new.names ≡ maker.now.names.now }
    ensures named { IfOk result (λ all. AreNamed maker.now.names.now all.items) }
{
    tokens.take_token();
    found.push(path(maker, tokens)?)?;
    Ok(found)
}

/// The paths after the first.
#[tactic(auto, using(zw_def_syntax::proofs::TurnLemmas::loop_ended, zw_def_syntax::proofs::TurnLemmas::loop_refused, zw_def_syntax::proofs::TurnLemmas::loop_gone_on, zw_def_syntax::proofs::TurnLemmas::loop_done))]
#[inline(never)]
pub(crate) fn more_paths<'t>(
    maker: &Maker<'t>,
    tokens: &mut Cursor<'t>,
    mut found: Vec<Built>,
) -> Result<Vec<Built>, MakeFault>
    requires same { tokens.old.names ≡ maker.now.names.now }
    requires found { AreNamed maker.now.names.now found.items }
    ensures reads { Reads (λ all. all_seen maker.now.names.now all.items)
        (repeated (sign_next ",") part.one_more_path (all_seen maker.now.names.now found.items))
        tokens.old.input result tokens.new.input }
    ensures same { tokens.new.names ≡ maker.now.names.now }
    ensures named { IfOk result (λ all. AreNamed maker.now.names.now all.items) }
{
    'turn: for _turn in 0..tokens.left() {
        if !tokens.sign_next(Punctuation::Comma) {
            return Ok(found);
        }
        found = one_more_path(maker, tokens, found)?;
    }
    Ok(found)
}

/// The first path of a list.
#[inline(never)]
pub(crate) fn first_of_paths<'t>(
    maker: &Maker<'t>,
    tokens: &mut Cursor<'t>,
) -> Result<Vec<Built>, MakeFault>
    requires same { tokens.old.names ≡ maker.now.names.now }
    ensures reads { Reads (λ all. all_seen maker.now.names.now all.items) (part.first_of_paths)
        tokens.old.input result tokens.new.input }
    ensures same { tokens.new.names ≡ maker.now.names.now }
    ensures named { IfOk result (λ all. AreNamed maker.now.names.now all.items) }
{
    let mut found = Vec::new(maker.alloc);
    found.push(path(maker, tokens)?)?;
    Ok(found)
}

/// Paths with `,` between them.
#[tactic(auto, unfolding(zw_def_syntax::specs::Compound::paths))]
#[inline(never)]
pub(crate) fn paths<'t>(maker: &Maker<'t>, tokens: &mut Cursor<'t>) -> Result<Vec<Built>, MakeFault>
    requires same { tokens.old.names ≡ maker.now.names.now }
    ensures reads { Reads (λ all. all_seen maker.now.names.now all.items) (spec.paths) tokens.old.input
        result tokens.new.input }
    ensures same { tokens.new.names ≡ maker.now.names.now }
    ensures named { IfOk result (λ all. AreNamed maker.now.names.now all.items) }
{
    let first = first_of_paths(maker, tokens)?;
    more_paths(maker, tokens, first)
}

/// Paths, where one follows.
pub(crate) fn optional_paths<'t>(
    maker: &Maker<'t>,
    tokens: &mut Cursor<'t>,
) -> Result<Vec<Built>, MakeFault>
    requires same { tokens.old.names ≡ maker.now.names.now }
    ensures reads { Reads (λ all. all_seen maker.now.names.now all.items) (part.optional_paths)
        tokens.old.input result tokens.new.input }
    ensures same { tokens.new.names ≡ maker.now.names.now }
    ensures named { IfOk result (λ all. AreNamed maker.now.names.now all.items) }
{
    if path_next(tokens) {
        paths(maker, tokens)
    } else {
        Ok(Vec::new(maker.alloc))
    }
}
