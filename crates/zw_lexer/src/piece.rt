//! What stands at a place.
ghost use Rattle.std.specs.Prelude.{◌≡◌, ◌<◌, false, Ok, length};
ghost use Rattle.std.specs.Option.{option_map_or};
ghost use Rattle.zw_def_syntax.specs.Piece.{Reading};
ghost use Rattle.zw_def_syntax.specs.Scan as spec;
ghost use Rattle.zw_lexer.specs.Lexeme.{Reads, Locates, piece_seen};
ghost use Rattle.zw_lexer.specs.Place.{place_seen, nest_seen};

use crate::character::{begins_name, front_length, is_blank, is_line_feed, is_name_start};
use crate::content::{Start, text};
use crate::fault::{LexFault, Reason, SyntaxFault};
use crate::lexeme::{Lexeme, Piece, PieceFault};
use crate::number::number;
use crate::place::{Opening, Place};
use crate::sign::sign;
use crate::word::{symbol, variable, word};
use std::alloc::Global;

fn comment(characters: &[char]) -> Piece
    ensures { Ok (piece_seen result) ≡ spec.comment characters.now }
{
    Piece::gap(front_length(characters, |c| !is_line_feed(c)))
}

fn is_after_colon(last: Option<char>) -> bool
    ensures { result ≡ option_map_or spec.is_colon last false }
{
    last.is_some_and(|c| c == ':')
}

fn is_symbol(last: Option<char>, characters: &[char]) -> bool
    ensures { result ≡ spec.begins_symbol last characters.now }
{
    match characters.split_first() {
        None => false,
        Some((first, rest)) => *first == ':' && begins_name(rest) && !is_after_colon(last),
    }
}

fn symbol_or_sign(
    alloc: Global,
    last: Option<char>,
    characters: &[char],
) -> Result<Piece, PieceFault>
    ensures { Reads result (spec.symbol_or_sign_at last characters.now) }
{
    if is_symbol(last, characters) {
        symbol(alloc, &characters[1..])
    } else {
        sign(characters)
    }
}

// Texts, variables, symbols and signs.
fn marked(alloc: Global, last: Option<char>, characters: &[char]) -> Result<Piece, PieceFault>
    ensures { Reads result (spec.marked_at last characters.now) }
{
    let Some((first, rest)) = characters.split_first() else {
        return Ok(Piece::gap(0));
    };
    match *first {
        '@' => variable(alloc, rest),
        '\'' => text(alloc, Start::SingleQuote, rest),
        '"' => text(alloc, Start::DoubleQuote, rest),
        _ => symbol_or_sign(alloc, last, characters),
    }
}

fn token(alloc: Global, last: Option<char>, characters: &[char]) -> Result<Piece, PieceFault>
    ensures { Reads result (spec.token_at last characters.now) }
{
    let Some(first) = characters.first() else {
        return Ok(Piece::gap(0));
    };
    if is_name_start(*first) {
        word(alloc, characters)
    } else if first.is_ascii_digit() {
        number(characters)
    } else {
        marked(alloc, last, characters)
    }
}

fn line_end_or_token(
    alloc: Global,
    last: Option<char>,
    characters: &[char],
) -> Result<Piece, PieceFault>
    ensures { Reads result (spec.line_end_at last characters.now) }
{
    if characters.starts_with(&['\n']) {
        Ok(Piece::token(Lexeme::Newline, 1))
    } else if characters.starts_with(&['\r', '\n']) {
        Ok(Piece::token(Lexeme::Newline, 2))
    } else {
        token(alloc, last, characters)
    }
}

// What stands at a place, but for the `}` of an interpolation.
#[tactic(auto, unfolding(zw_def_syntax::specs::Scan::piece_at))]
fn plain_piece(alloc: Global, last: Option<char>, characters: &[char]) -> Result<Piece, PieceFault>
    ensures { Reads result (spec.piece_at last characters.now) }
{
    let Some(first) = characters.first() else {
        return Ok(Piece::gap(0));
    };
    if is_blank(*first) {
        Ok(Piece::gap(1))
    } else if *first == '#' {
        Ok(comment(characters))
    } else {
        line_end_or_token(alloc, last, characters)
    }
}

// What a place reads as, with the line of its fault.
fn located(line: usize, piece: Result<Piece, PieceFault>) -> Result<Piece, LexFault>
    ensures { (reading : Reading) → Reads piece reading → Locates result (spec.located line reading) }
{
    match piece {
        Ok(piece) => Ok(piece),
        Err(PieceFault::Refused(reason)) => Err(LexFault::Refused(SyntaxFault { line, reason })),
        Err(PieceFault::Memory) => Err(LexFault::Memory),
    }
}

// A `}` goes on with the innermost text that is open.
fn closing(
    alloc: Global,
    nest: &[Opening],
    place: &Place,
    characters: &[char],
) -> Result<Piece, LexFault>
    requires { 0 < length characters.now }
    ensures { Locates result (spec.closing_at (nest_seen nest.now) (place_seen place.now) characters.now) }
{
    match nest.last() {
        None => Err(LexFault::Refused(SyntaxFault {
            line: place.line,
            reason: Reason::OutsideCharacter,
        })),
        Some(opening) => located(
            opening.quote,
            text(alloc, Start::ClosingBrace, &characters[1..]),
        ),
    }
}

/// What stands at a place, where these texts are open.
pub(crate) fn piece(
    alloc: Global,
    nest: &[Opening],
    place: &Place,
    characters: &[char],
) -> Result<Piece, LexFault>
    ensures { Locates result (spec.piece_in (nest_seen nest.now) (place_seen place.now) characters.now) }
{
    if characters.starts_with(&['}']) {
        closing(alloc, nest, place, characters)
    } else {
        located(place.line, plain_piece(alloc, place.last, characters))
    }
}
