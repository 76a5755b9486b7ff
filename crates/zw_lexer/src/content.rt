//! The contents of texts.
ghost use Rattle.std.specs.Prelude.{◌≡◌, ◌<◌, ◌≤◌, IfOk, IfSome, IsTrue, Some, option_map, length, string_bytes};
ghost use Rattle.std.specs.List.{list_all};
ghost use Rattle.std.specs.Char.{is_ascii_hexdigit, digit_value};
ghost use Rattle.std.specs.Str.Parse.{digits_value};
ghost use Rattle.zw_def_syntax.specs.Character.{first_is};
ghost use Rattle.zw_def_syntax.specs.Content as spec;
ghost use Rattle.zw_lexer.specs.Content.{element_seen, ends_at, opens_at, element_by, content_after, ReadsContent, character_with, token_kind, whole_kind, front_kind};
ghost use Rattle.zw_lexer.specs.Lexeme.{Reads, lexeme_seen};

use crate::character::front_length;
use crate::fault::Reason;
use crate::lexeme::{Lexeme, Piece, PieceFault};
use std::alloc::Global;

/// What a content stands after: the quote of its text, or the `}` of an interpolation, which only double quotes have.
#[derive(Clone, Copy)]
pub(crate) enum Start {
    SingleQuote,
    DoubleQuote,
    ClosingBrace,
}

/// What a character or an escape stands for, and how many characters it has.
#[derive(Clone, Copy)]
struct Element {
    character: char,
    size: usize,
}

/// What a text holds up to its quote or to a `#{`, whether that is a `#{`, and how many characters that is.
#[derive(Drop)]
struct Content {
    held: String,
    opens: bool,
    size: usize,
}

/// How many digits the code of a character may have: the greatest is 10FFFF.
const MAX_HEXADECIMALS: usize = 6;

const HEXADECIMAL: u32 = 16;

// ---- elements

fn hexadecimal_value(digit: char) -> u32
    requires { IsTrue (is_ascii_hexdigit digit) }
    ensures value { result ≡ digit_value digit }
    ensures small { result < 16 }
{
    digit.to_digit(HEXADECIMAL).unwrap_or(0)
}

// The character with a code of at most six hexadecimal digits, if there is one.
fn character_of(digits: &[char]) -> Option<char>
    requires short { length digits.now ≤ 6 }
    requires digits { IsTrue (list_all is_ascii_hexdigit digits.now) }
    ensures { result ≡ character_with (digits_value 16 digits.now) }
{
    let mut code = 0;
    for digit in digits {
        code = code * HEXADECIMAL + hexadecimal_value(*digit);
    }
    char::from_u32(code)
}

fn begins_with_closing_brace(characters: &[char]) -> bool
    ensures { result ≡ first_is spec.is_closing_brace characters.now }
{
    characters.first().is_some_and(|c| *c == '}')
}

// The escape `\u{H}`, from what follows its `\u{` on.
fn unicode_escape(characters: &[char]) -> Option<Element>
    ensures { option_map element_seen result ≡ spec.unicode_escape characters.now }
{
    let size = front_length(characters, |c| c.is_ascii_hexdigit());
    if size == 0 || size > MAX_HEXADECIMALS || !begins_with_closing_brace(&characters[size..]) {
        return None;
    }
    let character = character_of(&characters[..size])?;
    Some(Element {
        character,
        size: size + 4,
    })
}

fn letter_escape(letter: char) -> Option<Element>
    ensures { option_map element_seen result ≡ spec.letter_escape letter }
{
    let character = match letter {
        'n' => '\n',
        't' => '\t',
        'r' => '\r',
        '"' => '"',
        '\\' => '\\',
        '#' => '#',
        _ => return None,
    };
    Some(Element { character, size: 2 })
}

// An escape, from what follows its backslash on.
fn escape(characters: &[char]) -> Option<Element>
    ensures { option_map element_seen result ≡ spec.escape characters.now }
{
    let first = characters.first()?;
    if characters.starts_with(&['u', '{']) {
        unicode_escape(&characters[2..])
    } else {
        letter_escape(*first)
    }
}

fn double_element(characters: &[char]) -> Option<Element>
    ensures { option_map element_seen result ≡ spec.double_element characters.now }
{
    let (first, rest) = characters.split_first()?;
    if *first == '\\' {
        return escape(rest);
    }
    Some(Element {
        character: *first,
        size: 1,
    })
}

fn single_escape(characters: &[char]) -> Element
    ensures { Some (element_seen result) ≡ spec.single_escape characters.now }
{
    let (character, size) = match characters.first() {
        Some('\'') => ('\'', 2),
        Some('\\') => ('\\', 2),
        _ => ('\\', 1),
    };
    Element { character, size }
}

fn single_element(characters: &[char]) -> Option<Element>
    ensures { option_map element_seen result ≡ spec.single_element characters.now }
{
    let (first, rest) = characters.split_first()?;
    if *first == '\\' {
        return Some(single_escape(rest));
    }
    Some(Element {
        character: *first,
        size: 1,
    })
}

fn element_at(start: Start, characters: &[char]) -> Option<Element>
    ensures value { option_map element_seen result ≡ element_by start characters.now }
    ensures within { IfSome result (λ e. (0 < e.size) × (e.size ≤ length characters.now)) }
{
    match start {
        Start::SingleQuote => single_element(characters),
        Start::DoubleQuote | Start::ClosingBrace => double_element(characters),
    }
}

// ---- contents

fn ends(start: Start, characters: &[char]) -> bool
    ensures { result ≡ ends_at start characters.now }
{
    match start {
        Start::SingleQuote => characters.starts_with(&['\'']),
        Start::DoubleQuote | Start::ClosingBrace => characters.starts_with(&['"']),
    }
}

fn opens(start: Start, characters: &[char]) -> bool
    ensures value { result ≡ opens_at start characters.now }
    ensures within { IsTrue result → 2 ≤ length characters.now }
{
    match start {
        Start::SingleQuote => false,
        Start::DoubleQuote | Start::ClosingBrace => characters.starts_with(&['#', '{']),
    }
}

fn content_of(alloc: Global, start: Start, characters: &[char]) -> Result<Content, PieceFault>
    ensures read { ReadsContent result (content_after start characters.now) }
    ensures within { IfOk result (λ c. c.size ≤ length characters.now) }
{
    let mut held = String::new(alloc);
    let mut at = 0;
    'elements: while at < characters.len() {
        let rest = &characters[at..];
        if ends(start, rest) {
            return Ok(Content {
                held,
                opens: false,
                size: at + 1,
            });
        }
        if opens(start, rest) {
            return Ok(Content {
                held,
                opens: true,
                size: at + 2,
            });
        }
        match element_at(start, rest) {
            None => return Err(PieceFault::Refused(Reason::OutsideEscape)),
            Some(element) => {
                held.push(element.character)?;
                at += element.size;
            }
        }
    }
    Err(PieceFault::Refused(Reason::UnendedText))
}

// ---- tokens

// What a content is, by what it stands after.
fn lexeme_of(start: Start, content: Content) -> Lexeme
    ensures { lexeme_seen result ≡ token_kind start content.opens (string_bytes content.held) }
{
    match (start, content.opens) {
        (Start::ClosingBrace, true) => Lexeme::TextMiddle(content.held),
        (Start::ClosingBrace, false) => Lexeme::TextEnd(content.held),
        (_, true) => Lexeme::TextBegin(content.held),
        (_, false) => Lexeme::Text(content.held),
    }
}

/// The text, or what goes on of it, whose start stands before the characters: up to its end or to a `#{`.
pub(crate) fn text(alloc: Global, start: Start, characters: &[char]) -> Result<Piece, PieceFault>
    ensures { Reads result (spec.text_token (whole_kind start) (front_kind start)
        (content_after start characters.now)) }
{
    let content = content_of(alloc, start, characters)?;
    let size = 1 + content.size;
    Ok(Piece::token(lexeme_of(start, content), size))
}
