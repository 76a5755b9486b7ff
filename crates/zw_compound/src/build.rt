//! The nodes and the parts of forms.
ghost use Rattle.std.specs.Prelude.{◌≡◌, ◌≤◌, [], ◌∷◌, IfOk, length};
ghost use Rattle.zw_def_syntax.specs.Compound as spec;
ghost use Rattle.zw_def_syntax.specs.Compound.{Reader};
ghost use Rattle.zw_def_syntax.specs.Tree.{row_of};
ghost use Rattle.zw_ast.specs.Gives.{Gives};
ghost use Rattle.zw_ast.specs.Grown.{grown_seen, all_seen};
ghost use Rattle.zw_ast.specs.Named.{IsName, IsNamed, AreNamed, greatest};
ghost use Rattle.zw_ast.specs.Node.{name_seen, order_seen};
ghost use Rattle.zw_ast.specs.Part.{branch_names, branch_seen, params_names, params_seen};
ghost use Rattle.zw_compound.specs.Arm.{arm_names, arm_seen, arms_seen};
ghost use Rattle.zw_compound.specs.Part as part;

use crate::choice::Arm;
use std::alloc::{AllocError, Global};
use zw_ast::{Built, MakeFault, Maker, Malformed, Optional, Order, Params};
use zw_names::Name;

/// The statements behind a word, or none where it is not there.
pub(crate) fn body_or_none(maker: &Maker<'_>, body: Option<Vec<Built>>) -> Vec<Built>
    requires { branch_names body ≤ length maker.now.names.now }
    ensures told { (inner : Reader) → all_seen maker.now.names.now result.items
        ≡ spec.body_or_none inner (branch_seen maker.now.names.now body) }
    ensures named { AreNamed maker.now.names.now result.items }
{
    match body {
        Some(all) => all,
        None => Vec::new(maker.alloc),
    }
}

/// A node in a row of its own.
#[inline(never)]
pub fn only(alloc: Global, one: Built) -> Result<Vec<Built>, AllocError>
    ensures { IfOk result (λ all. all.items ≡ one ∷ []) }
{
    let mut all = Vec::new(alloc);
    all.push(one)?;
    Ok(all)
}

fn choice_of(maker: &Maker<'_>, arm: Arm, other: Vec<Built>) -> Result<Built, MakeFault>
    requires arm { arm_names arm ≤ length maker.now.names.now }
    requires other { AreNamed maker.now.names.now other.items }
    ensures told { Gives (grown_seen maker.now.names.now) (part.choice_of (arm_seen maker.now.names.now arm)
        (all_seen maker.now.names.now other.items)) result }
    ensures named { IfOk result (IsNamed maker.now.names.now) }
{
    maker.choice(Order::TestFirst, arm.test, arm.body, other)
}

// An arm and what stands behind it, as what stands in the `else` of the arm before it.
#[inline(never)]
fn else_of_one(maker: &Maker<'_>, arm: Arm, other: Vec<Built>) -> Result<Vec<Built>, MakeFault>
    requires arm { arm_names arm ≤ length maker.now.names.now }
    requires other { AreNamed maker.now.names.now other.items }
    ensures told { Gives (λ all. all_seen maker.now.names.now all.items) (part.else_of_one
        (arm_seen maker.now.names.now arm) (all_seen maker.now.names.now other.items)) result }
    ensures named { IfOk result (λ all. AreNamed maker.now.names.now all.items) }
{
    let tree = choice_of(maker, arm, other)?;
    Ok(only(maker.alloc, tree)?)
}

// What stands in the `else` before these arms, the last of which has these statements in its own.
#[inline(never)]
fn else_of(
    maker: &Maker<'_>,
    mut arms: Vec<Arm>,
    mut other: Vec<Built>,
) -> Result<Vec<Built>, MakeFault>
    requires arms { greatest arm_names arms.items ≤ length maker.now.names.now }
    requires other { AreNamed maker.now.names.now other.items }
    ensures told { Gives (λ all. all_seen maker.now.names.now all.items) (part.else_of
        (arms_seen maker.now.names.now arms.items) (all_seen maker.now.names.now other.items)) result }
    ensures named { IfOk result (λ all. AreNamed maker.now.names.now all.items) }
{
    'arms: while let Some(arm) = arms.pop() {
        other = else_of_one(maker, arm, other)?;
    }
    Ok(other)
}

/// An `if` whose `elsif` are choices in its `else`.
#[tactic(auto, using(crate::proofs::ElseLemmas::chosen_by_else))]
#[inline(never)]
pub(crate) fn chosen(
    maker: &Maker<'_>,
    first: Arm,
    more: Vec<Arm>,
    other: Vec<Built>,
) -> Result<Built, MakeFault>
    requires first { arm_names first ≤ length maker.now.names.now }
    requires more { greatest arm_names more.items ≤ length maker.now.names.now }
    requires other { AreNamed maker.now.names.now other.items }
    ensures told { Gives (grown_seen maker.now.names.now) (spec.chosen (arm_seen maker.now.names.now first)
        (arms_seen maker.now.names.now more.items) (all_seen maker.now.names.now other.items)) result }
    ensures named { IfOk result (IsNamed maker.now.names.now) }
{
    let other = else_of(maker, more, other)?;
    choice_of(maker, first, other)
}

/// `until`: a `while` over `not`.
#[inline(never)]
pub fn until(
    maker: &Maker<'_>,
    order: Order,
    test: Built,
    body: Vec<Built>,
) -> Result<Built, MakeFault>
    requires test { IsNamed maker.now.names.now test }
    requires body { AreNamed maker.now.names.now body.items }
    ensures told { Gives (grown_seen maker.now.names.now) (spec.until_tree (order_seen order)
        (grown_seen maker.now.names.now test) (row_of (all_seen maker.now.names.now body.items))) result }
    ensures named { IfOk result (IsNamed maker.now.names.now) }
{
    let negated = maker.negation(test)?;
    maker.repetition(order, negated, body)
}

/// The parameters with one more that a call must give. It stands before those with a default.
#[inline(never)]
pub(crate) fn required_after(
    maker: &Maker<'_>,
    mut params: Params,
    name: Name,
) -> Result<Params, MakeFault>
    requires params { params_names params ≤ length maker.now.names.now }
    requires name { IsName maker.now.names.now name }
    ensures told { Gives (λ p. params_seen maker.now.names.now p) (part.required_after
        (params_seen maker.now.names.now params) (name_seen maker.now.names.now name)) result }
    ensures named { IfOk result (λ p. params_names p ≤ length maker.now.names.now) }
{
    if !params.optional.is_empty() {
        return Err(MakeFault::Refused(Malformed));
    }
    params.required.push(name)?;
    Ok(params)
}

/// The parameters with one more that has a default.
#[tactic(auto, using(crate::proofs::NamedLemmas::optional_pushed))]
#[inline(never)]
pub(crate) fn with_default(
    maker: &Maker<'_>,
    mut params: Params,
    name: Name,
    value: Built,
) -> Result<Params, AllocError>
    requires params { params_names params ≤ length maker.now.names.now }
    requires name { IsName maker.now.names.now name }
    requires value { IsNamed maker.now.names.now value }
    ensures told { IfOk result (λ p. params_seen maker.now.names.now p ≡ spec.with_default
        (params_seen maker.now.names.now params) (name_seen maker.now.names.now name)
        (grown_seen maker.now.names.now value)) }
    ensures named { IfOk result (λ p. params_names p ≤ length maker.now.names.now) }
{
    params.optional.push(Optional { name, value })?;
    Ok(params)
}
