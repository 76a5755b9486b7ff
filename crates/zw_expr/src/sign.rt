//! The signs between operands.
ghost use Rattle.std.specs.Prelude.{◌≡◌, option_map};
ghost use Rattle.zw_lexer.specs.Punctuation.{sign_text};
ghost use Rattle.zw_expr.specs.Sign.{text_of_sign, operand_sign};

use zw_lexer::Punctuation;

/// A sign of the levels from `||` to `*` (ISO/IEC 30170, 11.2 and 11.4.3 to 11.4.4).
#[derive(Clone, Copy, Debug, PartialEq, Eq)]
pub enum Sign {
    Or,
    And,
    Equal,
    NotEqual,
    Compare,
    Less,
    LessEqual,
    Greater,
    GreaterEqual,
    Plus,
    Minus,
    Times,
    Divide,
    Remainder,
}

impl Sign {
    /// The sign between operands that a sign is, if it is one.
    pub fn of(sign: Punctuation) -> Option<Sign>
        ensures { option_map text_of_sign result ≡ operand_sign (sign_text sign) }
    {
        match sign {
            Punctuation::OrOr => Some(Sign::Or),
            Punctuation::AndAnd => Some(Sign::And),
            Punctuation::EqualEqual => Some(Sign::Equal),
            Punctuation::NotEqual => Some(Sign::NotEqual),
            Punctuation::Compare => Some(Sign::Compare),
            Punctuation::Less => Some(Sign::Less),
            Punctuation::LessEqual => Some(Sign::LessEqual),
            Punctuation::Greater => Some(Sign::Greater),
            Punctuation::GreaterEqual => Some(Sign::GreaterEqual),
            Punctuation::Plus => Some(Sign::Plus),
            Punctuation::Minus => Some(Sign::Minus),
            Punctuation::Times => Some(Sign::Times),
            Punctuation::Divide => Some(Sign::Divide),
            Punctuation::Remainder => Some(Sign::Remainder),
            Punctuation::OrAssign
            | Punctuation::AndAssign
            | Punctuation::PlusAssign
            | Punctuation::MinusAssign
            | Punctuation::TimesAssign
            | Punctuation::DivideAssign
            | Punctuation::RemainderAssign
            | Punctuation::Scope
            | Punctuation::Arrow
            | Punctuation::Bang
            | Punctuation::Assign
            | Punctuation::Dot
            | Punctuation::OpenParenthesis
            | Punctuation::CloseParenthesis
            | Punctuation::OpenBracket
            | Punctuation::CloseBracket
            | Punctuation::Comma
            | Punctuation::Semicolon
            | Punctuation::Question
            | Punctuation::Colon => None,
        }
    }

    /// How it is written.
    pub fn text(self) -> &'static str
        ensures { result.now ≡ text_of_sign self }
    {
        match self {
            Sign::Or => "||",
            Sign::And => "&&",
            Sign::Equal => "==",
            Sign::NotEqual => "!=",
            Sign::Compare => "<=>",
            Sign::Less => "<",
            Sign::LessEqual => "<=",
            Sign::Greater => ">",
            Sign::GreaterEqual => ">=",
            Sign::Plus => "+",
            Sign::Minus => "-",
            Sign::Times => "*",
            Sign::Divide => "/",
            Sign::Remainder => "%",
        }
    }
}
