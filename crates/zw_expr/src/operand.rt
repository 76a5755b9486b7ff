//! Operands, and two of them made into one.
ghost use Rattle.std.specs.Prelude.{◌≡◌, true, codes, [], ◌∷◌, IfOk};
ghost use Rattle.std.specs.Str.{bytes_eq};
ghost use Rattle.zw_def.specs.Text.{is_among};
ghost use Rattle.zw_def_syntax.specs.Expression as e;
ghost use Rattle.zw_def_syntax.specs.Levels as spec;
ghost use Rattle.zw_def_syntax.specs.Tree as t;
ghost use Rattle.zw_ast.specs.Gives.{Gives};
ghost use Rattle.zw_ast.specs.Grown.{grown_seen};
ghost use Rattle.zw_ast.specs.Named.{IsNamed};
ghost use Rattle.zw_ast.specs.Operator.{operators};
ghost use Rattle.zw_expr.specs.Sign.{text_of_sign};

use crate::sign::Sign;
use zw_ast::{Built, MakeFault, Maker};

/// An operand, and the sign before it; before the first one there is none.
#[derive(Drop)]
pub struct Operand {
    pub sign: Option<Sign>,
    pub value: Built,
}

fn is_and(sign: Sign) -> bool
    ensures { result ≡ bytes_eq (text_of_sign sign) (codes "&&") }
{
    matches!(sign, Sign::And)
}

fn is_or(sign: Sign) -> bool
    ensures { result ≡ bytes_eq (text_of_sign sign) (codes "||") }
{
    matches!(sign, Sign::Or)
}

// The call of the method that the sign is.
#[inline(never)]
fn called(maker: &Maker<'_>, sign: Sign, left: Built, right: Built) -> Result<Built, MakeFault>
    requires sign { is_among operators (text_of_sign sign) ≡ true }
    requires left { IsNamed maker.now.names.now left }
    requires right { IsNamed maker.now.names.now right }
    ensures told { Gives (grown_seen maker.now.names.now) (e.call (text_of_sign sign)
        (grown_seen maker.now.names.now left) (grown_seen maker.now.names.now right ∷ [])) result }
    ensures named { IfOk result (IsNamed maker.now.names.now) }
{
    let name = maker.operator(sign.text());
    let mut args = Vec::new(maker.alloc);
    args.push(right)?;
    maker.call(left, name, args)
}

/// Two operands with a sign between them.
pub(crate) fn join(
    maker: &Maker<'_>,
    sign: Sign,
    left: Built,
    right: Built,
) -> Result<Built, MakeFault>
    requires left { IsNamed maker.now.names.now left }
    requires right { IsNamed maker.now.names.now right }
    ensures told { Gives (grown_seen maker.now.names.now) (t.over_both (spec.join (text_of_sign sign))
        (grown_seen maker.now.names.now left) (grown_seen maker.now.names.now right)) result }
    ensures named { IfOk result (IsNamed maker.now.names.now) }
{
    if is_and(sign) {
        maker.conjunction(left, right)
    } else if is_or(sign) {
        maker.disjunction(left, right)
    } else {
        called(maker, sign, left, right)
    }
}
