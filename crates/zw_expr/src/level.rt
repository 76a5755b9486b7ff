//! The levels of the signs between operands (ISO/IEC 30170, 11.2 and 11.4.3 to 11.4.4).
ghost use Rattle.std.specs.Prelude.{◌≡◌, ◌&&◌, option_map};
ghost use Rattle.zw_def_syntax.specs.Levels as spec;
ghost use Rattle.zw_expr.specs.Operand.{level_seen, level_sign, sign_before};
ghost use Rattle.zw_expr.specs.Sign.{text_of_sign};

use crate::sign::Sign;

/// The levels, from the loosest on.
#[derive(Clone, Copy)]
pub(crate) enum Level {
    Or,
    And,
    Equal,
    Compare,
    Sum,
    Term,
}

fn is_sign_of(level: Level, sign: Sign) -> bool
    ensures { result ≡ spec.is_of (level_seen level) (text_of_sign sign) }
{
    match level {
        Level::Or => matches!(sign, Sign::Or),
        Level::And => matches!(sign, Sign::And),
        Level::Equal => matches!(sign, Sign::Equal | Sign::NotEqual | Sign::Compare),
        Level::Compare => matches!(
            sign,
            Sign::Less | Sign::LessEqual | Sign::Greater | Sign::GreaterEqual
        ),
        Level::Sum => matches!(sign, Sign::Plus | Sign::Minus),
        Level::Term => matches!(sign, Sign::Times | Sign::Divide | Sign::Remainder),
    }
}

/// The sign, where it is one of the level. Before the first operand there is none.
pub(crate) fn sign_of(level: Level, sign: Option<Sign>) -> Option<Sign>
    ensures { option_map text_of_sign result ≡ level_sign (level_seen level) (sign_before sign) }
{
    match sign {
        Some(sign) if is_sign_of(level, sign) => Some(sign),
        _ => None,
    }
}

/// Whether one more sign of the level is refused, where one was met before.
pub(crate) fn is_repeated(made: bool, level: Level) -> bool
    ensures { result ≡ (made && spec.stands_alone (level_seen level)) }
{
    made && matches!(level, Level::Equal)
}
