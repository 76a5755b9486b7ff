//! Tokens. It stands on the definition of the tokens of a text in `zw_def_syntax`, on `zw_names` for names, and on
//! `unicode_ident`, which tells the characters of a name. It promises that `lex` gives exactly the tokens of a text, in
//! order and with nothing between them but blanks, comments and line ends, or exactly its first fault; and that names
//! stay as they are.
//!
//! The characters are decoded once. `scan` cuts them into pieces, `settle` tells words apart and drops line ends.
#![tactic(auto)]

mod character;
mod content;
mod fault;
mod keyword;
mod lexeme;
mod lexer;
mod magnitude;
mod number;
mod piece;
mod place;
mod punctuation;
mod scan;
mod settle;
mod sign;
mod token;
mod word;

pub use fault::{LexFault, Reason, SyntaxFault};
pub use keyword::Keyword;
pub use lexer::lex;
pub use magnitude::Magnitude;
pub use punctuation::Punctuation;
pub use token::{Token, TokenKind};
