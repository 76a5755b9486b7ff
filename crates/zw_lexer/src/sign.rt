//! The sign that stands at a place.
ghost use Rattle.std.specs.Prelude.{◌≡◌, option_map};
ghost use Rattle.zw_def_syntax.specs.Character.{begins};
ghost use Rattle.zw_def_syntax.specs.Scan.{sign_at, sign_token};
ghost use Rattle.zw_lexer.specs.Lexeme.{Reads};
ghost use Rattle.zw_lexer.specs.Punctuation.{sign_text};

use crate::fault::Reason;
use crate::lexeme::{Lexeme, Piece, PieceFault};
use crate::punctuation::{Punctuation, SIGNS};

// Whether the characters begin with those of a text of ASCII.
fn begins_with(characters: &[char], front: &[u8]) -> bool
    ensures { result ≡ begins front.now characters.now }
{
    let mut left = characters;
    for byte in front {
        match left.split_first() {
            Some((first, rest)) if *first == char::from(*byte) => left = rest,
            _ => return false,
        }
    }
    true
}

// The longest sign at the front of the characters.
fn sign_at(characters: &[char]) -> Option<Punctuation>
    ensures { option_map sign_text result ≡ sign_at characters.now }
{
    SIGNS
        .iter()
        .find(|sign| begins_with(characters, sign.text().as_bytes()))
        .copied()
}

/// The longest sign at the front of the characters.
pub(crate) fn sign(characters: &[char]) -> Result<Piece, PieceFault>
    ensures { Reads result (sign_token characters.now) }
{
    match sign_at(characters) {
        None => Err(PieceFault::Refused(Reason::OutsideCharacter)),
        Some(sign) => Ok(Piece::token(Lexeme::Sign(sign), sign.text().len())),
    }
}
