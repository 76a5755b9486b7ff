//! Pieces of a text: a token before its name is numbered, or what lies between tokens.
ghost use Rattle.std.specs.Prelude.{◌≡◌, IfOk, Ok, string_bytes};
ghost use Rattle.std.specs.Str.{encode_utf8_all};
ghost use Rattle.zw_def_syntax.specs.Piece.{gap, token};
ghost use Rattle.zw_lexer.specs.Lexeme.{lexeme_seen, piece_seen};

use crate::fault::Reason;
use crate::magnitude::Magnitude;
use crate::punctuation::Punctuation;
use std::alloc::{AllocError, Global};
use zw_base::Fault;

/// What a token is, with the text of its name.
#[derive(Drop)]
pub(crate) enum Lexeme {
    Newline,
    Identifier(String),
    Constant(String),
    Integer(Magnitude),
    InstanceVariable(String),
    ClassVariable(String),
    Symbol(String),
    Text(String),
    TextBegin(String),
    TextMiddle(String),
    TextEnd(String),
    Sign(Punctuation),
}

/// A token, or blanks and comments, which are none; and how many characters it has.
#[derive(Drop)]
pub(crate) struct Piece {
    pub(crate) lexeme: Option<Lexeme>,
    pub(crate) size: usize,
}

/// Why no piece is read.
pub(crate) type PieceFault = Fault<Reason>;

impl Piece {
    /// A token of so many characters.
    pub(crate) fn token(lexeme: Lexeme, size: usize) -> Piece
        ensures { Ok (piece_seen result) ≡ token (lexeme_seen lexeme) size }
    {
        Piece {
            lexeme: Some(lexeme),
            size,
        }
    }

    /// So many characters that are no token.
    pub(crate) fn gap(size: usize) -> Piece
        ensures { Ok (piece_seen result) ≡ gap size }
    {
        Piece { lexeme: None, size }
    }
}

/// The text of some characters.
pub(crate) fn text_of(alloc: Global, characters: &[char]) -> Result<String, AllocError>
    ensures { IfOk result (λ text. string_bytes text ≡ encode_utf8_all characters.now) }
{
    let mut text = String::new(alloc);
    for character in characters {
        text.push(*character)?;
    }
    Ok(text)
}
