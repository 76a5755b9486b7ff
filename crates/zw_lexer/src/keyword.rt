//! Keywords, and words that the language does not have.
ghost use Rattle.std.specs.Prelude.{◌≡◌, Some, None, if◌then◌else◌, option_map};
ghost use Rattle.zw_def_syntax.specs.Lexed.{is_among, keywords, outside_words};
ghost use Rattle.zw_lexer.specs.Keyword.{keyword_text};

/// A keyword (ISO/IEC 30170, 8.7.2).
#[derive(Clone, Copy, Debug, PartialEq, Eq)]
pub enum Keyword {
    And,
    Begin,
    Break,
    Class,
    Def,
    Do,
    Else,
    Elsif,
    End,
    Ensure,
    False,
    If,
    Module,
    Next,
    Nil,
    Not,
    Or,
    Rescue,
    Return,
    SelfWord,
    Super,
    Then,
    True,
    Unless,
    Until,
    While,
}

// Each keyword.
const KEYWORDS: [Keyword; 26] = [
    Keyword::And,
    Keyword::Begin,
    Keyword::Break,
    Keyword::Class,
    Keyword::Def,
    Keyword::Do,
    Keyword::Else,
    Keyword::Elsif,
    Keyword::End,
    Keyword::Ensure,
    Keyword::False,
    Keyword::If,
    Keyword::Module,
    Keyword::Next,
    Keyword::Nil,
    Keyword::Not,
    Keyword::Or,
    Keyword::Rescue,
    Keyword::Return,
    Keyword::SelfWord,
    Keyword::Super,
    Keyword::Then,
    Keyword::True,
    Keyword::Unless,
    Keyword::Until,
    Keyword::While,
];

impl Keyword {
    /// How it is written.
    pub fn text(self) -> &'static str
        ensures { result.now ≡ keyword_text self }
    {
        match self {
            Keyword::And => "and",
            Keyword::Begin => "begin",
            Keyword::Break => "break",
            Keyword::Class => "class",
            Keyword::Def => "def",
            Keyword::Do => "do",
            Keyword::Else => "else",
            Keyword::Elsif => "elsif",
            Keyword::End => "end",
            Keyword::Ensure => "ensure",
            Keyword::False => "false",
            Keyword::If => "if",
            Keyword::Module => "module",
            Keyword::Next => "next",
            Keyword::Nil => "nil",
            Keyword::Not => "not",
            Keyword::Or => "or",
            Keyword::Rescue => "rescue",
            Keyword::Return => "return",
            Keyword::SelfWord => "self",
            Keyword::Super => "super",
            Keyword::Then => "then",
            Keyword::True => "true",
            Keyword::Unless => "unless",
            Keyword::Until => "until",
            Keyword::While => "while",
        }
    }

    /// The keyword that a word is, if it is one (ISO/IEC 30170, 8.7.2).
    pub(crate) fn of(word: &str) -> Option<Keyword>
        ensures { option_map keyword_text result ≡ (if is_among keywords word.now then Some word.now else None) }
    {
        KEYWORDS
            .iter()
            .find(|keyword| word == keyword.text())
            .copied()
    }
}

/// Whether a word is a keyword of Ruby that the language does not have.
#[tactic(auto, unfolding(zw_def_syntax::specs::Lexed::outside_words))]
pub(crate) fn is_outside(word: &str) -> bool
    ensures { result ≡ is_among outside_words word.now }
{
    matches!(
        word,
        "BEGIN"
            | "END"
            | "__ENCODING__"
            | "__FILE__"
            | "__LINE__"
            | "alias"
            | "case"
            | "defined?"
            | "for"
            | "in"
            | "redo"
            | "retry"
            | "undef"
            | "when"
            | "yield"
    )
}
