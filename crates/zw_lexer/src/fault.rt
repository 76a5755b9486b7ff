//! Why a text is refused.
ghost use Rattle.std.specs.Prelude.{◌≡◌};
ghost use Rattle.zw_def_syntax.specs.Token.{reason_number};
ghost use Rattle.zw_lexer.specs.Fault.{reason_seen};

use thiserror::Error;
use zw_base::Fault;

/// Why a text is no program.
#[derive(Clone, Copy, Debug, PartialEq, Eq, Error)]
pub enum Reason {
    #[error("not UTF-8")]
    NotUtf8,
    #[error("character outside the profile")]
    OutsideCharacter,
    #[error("number outside the profile")]
    OutsideNumber,
    #[error("text not ended")]
    UnendedText,
    #[error("escape outside the profile")]
    OutsideEscape,
    #[error("word outside the profile")]
    OutsideWord,
    #[error("variable without a name")]
    NamelessVariable,
    #[error("interpolation not ended")]
    UnendedInterpolation,
    #[error("malformed or nested too deep")]
    Malformed,
    #[error("return, break, next or super out of place")]
    MisplacedJump,
    #[error("def out of place")]
    MisplacedDef,
    #[error("class, module or constant assignment in a method")]
    DefinitionInMethod,
    #[error("parameter repeated")]
    RepeatedParameter,
}

impl Reason {
    /// The number that output has for the reason: its place among them, from 1 on.
    pub fn number(self) -> u8
        ensures { result ≡ reason_number (reason_seen self) }
    {
        match self {
            Reason::NotUtf8 => 1,
            Reason::OutsideCharacter => 2,
            Reason::OutsideNumber => 3,
            Reason::UnendedText => 4,
            Reason::OutsideEscape => 5,
            Reason::OutsideWord => 6,
            Reason::NamelessVariable => 7,
            Reason::UnendedInterpolation => 8,
            Reason::Malformed => 9,
            Reason::MisplacedJump => 10,
            Reason::MisplacedDef => 11,
            Reason::DefinitionInMethod => 12,
            Reason::RepeatedParameter => 13,
        }
    }
}

/// A text is no program, for this reason, which shows on this line.
#[derive(Clone, Copy, Debug, PartialEq, Eq, Error)]
#[error("line {line}: {reason}")]
pub struct SyntaxFault {
    /// From 1 on.
    pub line: usize,
    pub reason: Reason,
}

/// Why a text has no tokens.
pub type LexFault = Fault<SyntaxFault>;
