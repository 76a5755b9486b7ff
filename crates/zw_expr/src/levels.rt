//! Operands with signs between them, made into one (ISO/IEC 30170, 11.2 and 11.4.3 to 11.4.4).
ghost use Rattle.std.specs.Prelude.{◌≡◌, ◌≤◌, ◌<◌, List, IfOk, length, true, false};
ghost use Rattle.zw_def_syntax.specs.Levels.{is_of};
ghost use Rattle.zw_ast.specs.Gives.{Gives};
ghost use Rattle.zw_ast.specs.Grown.{grown_seen};
ghost use Rattle.zw_ast.specs.Named.{IsNamed, bound_of, greatest};
ghost use Rattle.zw_def.specs.Text.{Text};
ghost use Rattle.zw_expr.specs.Joined as spec;
ghost use Rattle.zw_expr.specs.Joined.{Leaves};
ghost use Rattle.zw_expr.specs.Operand.{AreNamedOperands, level_seen, operand_names, operand_seen, operands_seen};
ghost use Rattle.zw_expr.specs.Sign.{text_of_sign};

use crate::level::{Level, is_repeated, sign_of};
use crate::operand::{Operand, join};
use crate::sign::Sign;
use std::collections::VecDeque;
use zw_ast::{Built, MakeFault, Maker, Malformed};

// An operand, made into one with what stands behind it.
#[inline(never)]
fn with_joined(
    maker: &Maker<'_>,
    sign: Sign,
    last: Operand,
    right: Built,
) -> Result<Operand, MakeFault>
    requires last { operand_names last ≤ length maker.now.names.now }
    requires right { IsNamed maker.now.names.now right }
    ensures told { Gives (operand_seen maker.now.names.now) (spec.with_joined (text_of_sign sign)
        (operand_seen maker.now.names.now last) (grown_seen maker.now.names.now right)) result }
    ensures named { IfOk result (λ o. operand_names o ≤ length maker.now.names.now) }
{
    let value = join(maker, sign, last.value, right)?;
    Ok(Operand {
        sign: last.sign,
        value,
    })
}

// The last operand, made into one with what stands behind it.
#[tactic(auto, using(crate::proofs::JoinLemmas::last_goes, crate::proofs::JoinLemmas::last_fails, crate::proofs::ListLemmas::greatest_pushed))]
#[inline(never)]
fn join_last(
    maker: &Maker<'_>,
    sign: Sign,
    done: &mut VecDeque<Operand>,
    right: Built,
) -> Result<(), MakeFault>
    requires done { AreNamedOperands maker.now.names.now done.old.items }
    requires some { 0 < length done.old.items }
    requires right { IsNamed maker.now.names.now right }
    ensures told { Leaves (spec.with_last_joined (text_of_sign sign)
        (operands_seen maker.now.names.now done.old.items) (grown_seen maker.now.names.now right)) result
        (λ _. operands_seen maker.now.names.now done.new.items) }
    ensures named { AreNamedOperands maker.now.names.now done.new.items }
    ensures some { IfOk result (λ _. 0 < length done.new.items) }
{
    let Some(last) = done.pop_back() else {
        return Err(MakeFault::Refused(Malformed));
    };
    let joined = with_joined(maker, sign, last, right)?;
    done.push_back(joined)?;
    Ok(())
}

// The last operand, made into one with the next, before which a sign of the level stands.
#[tactic(auto, unfolding(crate::specs::Joined::turn_of))]
#[inline(never)]
fn joined_on(
    maker: &Maker<'_>,
    level: Level,
    made: bool,
    done: &mut VecDeque<Operand>,
    sign: Sign,
    right: Built,
) -> Result<bool, MakeFault>
    requires done { AreNamedOperands maker.now.names.now done.old.items }
    requires some { 0 < length done.old.items }
    requires right { IsNamed maker.now.names.now right }
    requires sign { is_of (level_seen level) (text_of_sign sign) ≡ true }
    ensures told { Leaves (spec.turn_of (level_seen level) made (operands_seen maker.now.names.now done.old.items)
        (record { sign = text_of_sign sign; value = grown_seen maker.now.names.now right })) result
        (λ m. (operands_seen maker.now.names.now done.new.items, m)) }
    ensures named { AreNamedOperands maker.now.names.now done.new.items }
    ensures some { IfOk result (λ _. 0 < length done.new.items) }
{
    if is_repeated(made, level) {
        return Err(MakeFault::Refused(Malformed));
    }
    join_last(maker, sign, done, right)?;
    Ok(true)
}

// One more operand: whether the last one is now made of others.
#[tactic(auto, using(crate::proofs::JoinLemmas::level_sign_is, crate::proofs::ListLemmas::greatest_pushed), unfolding(crate::specs::Joined::turn_of))]
#[inline(never)]
fn turned(
    maker: &Maker<'_>,
    level: Level,
    made: bool,
    done: &mut VecDeque<Operand>,
    operand: Operand,
) -> Result<bool, MakeFault>
    requires done { AreNamedOperands maker.now.names.now done.old.items }
    requires some { 0 < length done.old.items }
    requires operand { operand_names operand ≤ length maker.now.names.now }
    ensures told { Leaves (spec.turn_of (level_seen level) made (operands_seen maker.now.names.now done.old.items)
        (operand_seen maker.now.names.now operand)) result
        (λ m. (operands_seen maker.now.names.now done.new.items, m)) }
    ensures named { AreNamedOperands maker.now.names.now done.new.items }
    ensures some { IfOk result (λ _. 0 < length done.new.items) }
{
    match sign_of(level, operand.sign) {
        Some(sign) => joined_on(maker, level, made, done, sign, operand.value),
        None => {
            done.push_back(operand)?;
            Ok(false)
        }
    }
}

// The operands that are left, behind those that are done.
#[tactic(auto, using(crate::proofs::JoinLemmas::turn_goes, crate::proofs::JoinLemmas::turn_fails, crate::proofs::JoinLemmas::level_ends))]
#[inline(never)]
fn joined_from(
    maker: &Maker<'_>,
    level: Level,
    mut done: VecDeque<Operand>,
    mut rest: VecDeque<Operand>,
) -> Result<VecDeque<Operand>, MakeFault>
    requires done { AreNamedOperands maker.now.names.now done.items }
    requires rest { AreNamedOperands maker.now.names.now rest.items }
    requires some { 0 < length done.items }
    ensures told { Gives (λ all. operands_seen maker.now.names.now all.items) (spec.resumed (level_seen level) false
        (operands_seen maker.now.names.now done.items) (operands_seen maker.now.names.now rest.items)) result }
    ensures named { IfOk result (λ all. AreNamedOperands maker.now.names.now all.items) }
{
    let mut made = false;
    'turns: while let Some(operand) = rest.pop_front() {
        made = turned(maker, level, made, &mut done, operand)?;
    }
    Ok(done)
}

// Those between which a sign of the level stands, made into one.
#[inline(never)]
fn joined(
    maker: &Maker<'_>,
    level: Level,
    mut operands: VecDeque<Operand>,
) -> Result<VecDeque<Operand>, MakeFault>
    requires { AreNamedOperands maker.now.names.now operands.items }
    ensures told { Gives (λ all. operands_seen maker.now.names.now all.items)
        (spec.joined (level_seen level) (operands_seen maker.now.names.now operands.items)) result }
    ensures named { IfOk result (λ all. AreNamedOperands maker.now.names.now all.items) }
{
    let mut done = VecDeque::new(maker.alloc);
    let Some(first) = operands.pop_front() else {
        return Ok(done);
    };
    done.push_back(first)?;
    joined_from(maker, level, done, operands)
}

// The three levels that are tightest.
#[inline(never)]
fn tight(maker: &Maker<'_>, operands: VecDeque<Operand>) -> Result<VecDeque<Operand>, MakeFault>
    requires { AreNamedOperands maker.now.names.now operands.items }
    ensures told { Gives (λ all. operands_seen maker.now.names.now all.items)
        (spec.tight (operands_seen maker.now.names.now operands.items)) result }
    ensures named { IfOk result (λ all. AreNamedOperands maker.now.names.now all.items) }
{
    let operands = joined(maker, Level::Term, operands)?;
    let operands = joined(maker, Level::Sum, operands)?;
    joined(maker, Level::Compare, operands)
}

// The three that are loosest.
#[inline(never)]
fn loose(maker: &Maker<'_>, operands: VecDeque<Operand>) -> Result<VecDeque<Operand>, MakeFault>
    requires { AreNamedOperands maker.now.names.now operands.items }
    ensures told { Gives (λ all. operands_seen maker.now.names.now all.items)
        (spec.loose (operands_seen maker.now.names.now operands.items)) result }
    ensures named { IfOk result (λ all. AreNamedOperands maker.now.names.now all.items) }
{
    let operands = joined(maker, Level::Equal, operands)?;
    let operands = joined(maker, Level::And, operands)?;
    joined(maker, Level::Or, operands)
}

fn only(mut operands: VecDeque<Operand>) -> Result<Built, MakeFault>
    ensures told { (names : List Text) → Gives (grown_seen names) (spec.only (operands_seen names operands.items)) result }
    ensures named { IfOk result (λ g. bound_of g.form ≤ greatest operand_names operands.items) }
{
    if operands.len() != 1 {
        return Err(MakeFault::Refused(Malformed));
    }
    match operands.pop_front() {
        Some(operand) => Ok(operand.value),
        None => Err(MakeFault::Refused(Malformed)),
    }
}

/// The node that the levels make of operands with signs between them. Malformed where they make none: `a == b == c`, or
/// a node that would be too high.
#[tactic(auto, using(crate::proofs::JoinLemmas::folded_goes, crate::proofs::JoinLemmas::folded_fails, crate::proofs::JoinLemmas::folded_ends))]
#[inline(never)]
pub fn fold(maker: &Maker<'_>, operands: VecDeque<Operand>) -> Result<Built, MakeFault>
    requires { AreNamedOperands maker.now.names.now operands.items }
    ensures told { Gives (grown_seen maker.now.names.now)
        (spec.whole_of (operands_seen maker.now.names.now operands.items)) result }
    ensures named { IfOk result (IsNamed maker.now.names.now) }
{
    let operands = tight(maker, operands)?;
    let operands = loose(maker, operands)?;
    only(operands)
}
